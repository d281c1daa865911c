// The functions of a reclaimer, and what they promise of their steps.
ghost use Rattle.std.specs.Prelude.{◌≡◌, ℕ, ◌<◌, ◌≤◌, ◌^◌, [], Bool, false};
ghost use Rattle.record_memory.specs.declared.books.Book.{Book};
ghost use Rattle.record_memory.specs.declared.books.Setup.{Setup};
ghost use Rattle.record_memory.specs.declared.books.Share.{Share};
ghost use Rattle.record_memory.specs.declared.books.View.{View};
ghost use Rattle.record_memory.specs.declared.books.Standing.TheVariants.{Free};
ghost use Rattle.row_words.specs.Refs.{RefParts};
ghost use Rattle.row_words.specs.declared.links.Freed.{Freed};
ghost use Rattle.record_rule.specs.Links.{near_of, HasTaken};
ghost use Rattle.record_rule.specs.Opening.{no_moves};
ghost use Rattle.record_table.specs.Handles.{setup_of, view, is_inside, IsPassOf, IsSamePass};
ghost use Rattle.record_table.specs.Nodes.{origin, HoldsNode};
ghost use Rattle.record_table.specs.declared.nodes.Node.{Node};
ghost use Rattle.reclaim_api.specs.Chained.{IsChainOf};
ghost use Rattle.reclaim_api.specs.Guarding.{IsInside, Enters, Leaves};
ghost use Rattle.reclaim_api.specs.Frames.{SamePart, AddsSteps, FreesInto, LeavesRest, LeavesRestBut, LeavesRecords};
ghost use Rattle.reclaim_api.specs.Locals.{IsLocalOf, IsLocalBorn, HasNoneAway};
ghost use Rattle.reclaim_api.specs.Holds.{IsElsewhere, HasReached, KeepsElse, KeepsHeld};
ghost use Rattle.reclaim_api.specs.declared.holding.Holding.{Holding};

use crate::holding::Holding;
use record_table::{Cover, Node, Pass, Shape, Table, TakenOut};
use row_words::{Chain, Freed};

/// Nothing left limbo.
pub const NONE_FREED: Freed = Freed { freed: 0, spent: 0 };

/// What a record manager runs of a reclaimer. A caller's pass is inside from `enter` to the `leave` that
/// follows, and only then may records be held.
///
/// Each call says by a relation of its own, on its caller's book before and after, which steps it made
/// and what it answered by them.
pub trait Scheme: Cover {
    /// How many records a caller holds at most, each at a place from 0 on. At least 3.
    const PLACES: u32;

    ghost PLACES: { ℕ };

    /// What a caller keeps for itself between the calls: its last reading of an epoch, its bags.
    type Local: Drop;

    // The local part is this caller's: told by whether its pass is inside, what the pass knew when its guard began or
    // ended, and what it knows.
    ghost is_local: { Self.Local → Bool → View → View → Type 0 };

    // The steps of `enter` and what left limbo; of `leave`; of `birth` and its answer; of `reach` from a
    // node's word, for a place, and its answer; of `put_away` and what left limbo.
    ghost enters: { Setup → Book → Freed → Book → Type 0 };

    ghost leaves: { Setup → Book → Book → Type 0 };

    ghost bears: { Setup → Book → ℕ → Book → Type 0 };

    ghost reaches: { Setup → ℕ → Node → ℕ → Book → Holding → Book → Type 0 };

    ghost puts_away: { Setup → Book → RefParts → Freed → Book → Type 0 };

    /// The local part of caller `caller`, from 0, of `callers`, at most 64. It made no step and is outside.
    fn local(caller: u32, callers: u32) -> Self::Local
        requires caller { caller < callers }
        requires callers { callers ≤ 64 }
        ensures { (v s : View) → v.own.caller ≡ caller → v.setup.callers ≡ callers → v.own.guard ≡ Self.facts.first → v.own.steps ≡ [] → v.own.moves ≡ no_moves → HasNoneAway v → is_local result false s v };

    /// The caller begins an operation. Records of its limbo may become free: they are put in front of
    /// `free`, its chain of free records, but for those that are spent.
    fn enter<S: Shape>(
        table: &Table<S, Self>,
        pass: &mut Pass<S, Self>,
        local: &mut Self::Local,
        free: &mut Chain,
    ) -> Freed
        requires pass { IsPassOf table.now pass.old }
        requires outside { is_inside pass.old ≡ false }
        requires local { IsLocalOf is_local local.old pass.old }
        requires free { IsChainOf Free (view pass.old) free.old }
        ensures pass { Enters pass.old pass.new }
        ensures local { IsLocalOf is_local local.new pass.new }
        ensures free { IsChainOf Free (view pass.new) free.new }
        ensures frees { FreesInto (view pass.old) free.old result (view pass.new) free.new }
        ensures rest { LeavesRest (view pass.old) (view pass.new) }
        ensures does { enters (setup_of table.now) (view pass.old).own result (view pass.new).own };

    /// The caller ends its operation, and holds nothing from then on.
    fn leave<S: Shape>(table: &Table<S, Self>, pass: &mut Pass<S, Self>, local: &mut Self::Local)
        requires pass { IsPassOf table.now pass.old }
        requires inside { IsInside pass.old }
        requires local { IsLocalOf is_local local.old pass.old }
        ensures pass { Leaves pass.old pass.new }
        ensures local { IsLocalOf is_local local.new pass.new }
        ensures rest { LeavesRecords (view pass.old) (view pass.new) }
        ensures does { leaves (setup_of table.now) (view pass.old).own (view pass.new).own };

    /// The birth of the record that is handed out next, below 2^44. Called once for each record that becomes the caller's
    /// own: one that was set aside keeps the birth that it has.
    fn birth<S: Shape>(
        table: &Table<S, Self>,
        pass: &mut Pass<S, Self>,
        local: &mut Self::Local,
    ) -> u64
        requires pass { IsPassOf table.now pass.old }
        requires inside { IsInside pass.old }
        requires local { IsLocalOf is_local local.old pass.old }
        ensures pass { IsSamePass pass.old pass.new }
        ensures inside { IsInside pass.new }
        ensures local { IsLocalBorn is_local local.new pass.new }
        ensures rest { LeavesRecords (view pass.old) (view pass.new) }
        ensures keeps { KeepsHeld pass.old pass.new }
        ensures fits { result < 2 ^ 44 }
        ensures allowed { Self.facts.births (view pass.new).own.guard result }
        ensures does { bears (setup_of table.now) (view pass.old).own result (view pass.new).own };

    /// Tries to hold, at `place`, what the link of `from` leads to. `place` is below `PLACES` and isn't
    /// the place of `from`, and `field` is 3, the word that holds a set's link. Where the answer isn't
    /// `Held`, the place holds nothing until it holds there again.
    fn reach<S: Shape>(
        table: &Table<S, Self>,
        pass: &mut Pass<S, Self>,
        local: &mut Self::Local,
        place: u32,
        from: Node,
        field: u8,
    ) -> Holding
        requires pass { IsPassOf table.now pass.old }
        requires inside { IsInside pass.old }
        requires local { IsLocalOf is_local local.old pass.old }
        requires place { place < PLACES }
        requires from { HoldsNode pass.old from }
        requires elsewhere { IsElsewhere (origin from) place }
        requires field { field ≡ 3 }
        requires link { S.facts.may_hold (near_of (view pass.old) (origin from)) 3 }
        ensures pass { IsSamePass pass.old pass.new }
        ensures inside { IsInside pass.new }
        ensures local { IsLocalOf is_local local.new pass.new }
        ensures rest { LeavesRecords (view pass.old) (view pass.new) }
        ensures reached { HasReached S.facts place (origin from) pass.old result pass.new }
        ensures keeps { KeepsElse place pass.old pass.new }
        ensures does { reaches (setup_of table.now) place from field (view pass.old).own result (view pass.new).own };

    /// Retires a record that this caller took out: it comes into its limbo. Records of its limbo may
    /// become free, as with `enter`.
    fn put_away<S: Shape>(
        table: &Table<S, Self>,
        pass: &mut Pass<S, Self>,
        local: &mut Self::Local,
        taken: TakenOut,
        free: &mut Chain,
    ) -> Freed
        requires pass { IsPassOf table.now pass.old }
        requires inside { IsInside pass.old }
        requires local { IsLocalOf is_local local.old pass.old }
        requires free { IsChainOf Free (view pass.old) free.old }
        requires taken { (h : Share) × HasTaken (view pass.old) taken h }
        ensures pass { IsSamePass pass.old pass.new }
        ensures inside { IsInside pass.new }
        ensures local { IsLocalOf is_local local.new pass.new }
        ensures free { IsChainOf Free (view pass.new) free.new }
        ensures frees { FreesInto (view pass.old) free.old result (view pass.new) free.new }
        ensures rest { LeavesRestBut taken.index (view pass.old) (view pass.new) }
        ensures keeps { KeepsHeld pass.old pass.new }
        ensures does { puts_away (setup_of table.now) (view pass.old).own taken result (view pass.new).own };

    // Of what its pass knows, whether a local part is this caller's depends on its guard, on its records in limbo or spent,
    // and on how many it retired and how many became its own alone; a guard may start with any load of a link.
    ghost local_stays: { (l : Self.Local) (inside : Bool) (s v w : View) → SamePart Self.facts v w → is_local l inside s v → is_local l inside s w };

    // Each call only adds steps.
    ghost enters_adds: { (k : Setup) (b : Book) (f : Freed) (c : Book) → enters k b f c → AddsSteps b c };

    ghost leaves_adds: { (k : Setup) (b c : Book) → leaves k b c → AddsSteps b c };

    ghost bears_adds: { (k : Setup) (b : Book) (n : ℕ) (c : Book) → bears k b n c → AddsSteps b c };

    ghost reaches_adds: { (k : Setup) (place : ℕ) (from : Node) (field : ℕ) (b : Book) (h : Holding) (c : Book) → reaches k place from field b h c → AddsSteps b c };

    ghost puts_away_adds: { (k : Setup) (b : Book) (r : RefParts) (f : Freed) (c : Book) → puts_away k b r f c → AddsSteps b c };

    // A caller's guard has as many places, and there are enough for a walk.
    ghost placed: { Self.facts.places ≡ PLACES };

    ghost enough: { 3 ≤ PLACES };
}
