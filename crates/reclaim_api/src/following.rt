// Following links, of marked records too, under the reclaimers that allow it.
ghost use Rattle.std.specs.Prelude.{◌≡◌, ◌<◌};
ghost use Rattle.record_rule.specs.FrozenLinks.{MayFollow};
ghost use Rattle.record_table.specs.Handles.{view, IsPassOf, IsSamePass};
ghost use Rattle.record_table.specs.Nodes.{origin, HoldsNode, is_first};
ghost use Rattle.reclaim_api.specs.Following.{HasFollowed, FollowsByLoad};
ghost use Rattle.reclaim_api.specs.Frames.{LeavesRecords};
ghost use Rattle.reclaim_api.specs.Guarding.{IsInside};
ghost use Rattle.reclaim_api.specs.Holds.{IsElsewhere, KeepsElse};
ghost use Rattle.reclaim_api.specs.Locals.{IsLocalOf};

use crate::scheme::Scheme;
use record_table::{CoversFrozen, Held, Node, Pass, Shape, Table};

/// What following a link answers.
#[derive(Clone, Copy, Debug, PartialEq, Eq)]
pub enum Reached {
    /// The link leads nowhere.
    Null {
        /// The link's flags.
        flags: u8,
    },
    /// What it leads to is held.
    Held {
        /// Where it is held.
        held: Held,
        /// The link's flags.
        flags: u8,
    },
}

/// A reclaimer under which a caller holds by one load what a link leads to, be the link's record marked
/// or taken out. It has no function of its own: these laws tie its local part to such loads.
pub trait Follows: Scheme + CoversFrozen {
    ghost use Rattle.std.specs.Prelude.{◌≡◌, ℕ, ◌<◌, ◌≤◌, Option, false, true, length};
    ghost use Rattle.record_memory.specs.declared.books.View.{View};
    ghost use Rattle.row_words.specs.Refs.{RefParts};
    ghost use Rattle.record_rule.specs.Facts.{Reach};
    ghost use Rattle.reclaim_api.specs.Following.{holds_at};

    // Who is inside may follow links, to each of its places.
    ghost may_follow: { (l : Self.Local) (s v : View) (q : Reach) → Self.is_local l true s v → q.place < Self.PLACES → Self.facts.may_reach v.own.guard q };

    // Its guard has started, unless guards start with loads of links.
    ghost has_started: { (l : Self.Local) (s v : View) → Self.is_local l true s v → Self.facts.begins_loading ≡ false → length s.own.steps < v.own.guard.start_step };

    // A guard that started did so behind all that its caller knew to come before when the operation began.
    ghost starts_behind: { (l : Self.Local) (s v : View) → Self.is_local l true s v → length s.own.steps < v.own.guard.start_step → length s.front ≤ v.own.guard.start_updates };

    // And its local part is its own whatever it holds.
    ghost local_holds: { (l : Self.Local) (s v : View) (place : ℕ) (t : Option RefParts) → Self.is_local l true s v → Self.is_local l true s (holds_at v place t) };
}

/// Follows the link of `from`, marked or not, and holds at `place` what it leads to, even where that was
/// taken out behind the start of the guard. `place` is below `PLACES` and isn't the place of `from`, and
/// `field` is 3, the word that holds a set's link. `local` is the caller's local part.
pub fn follow<S: Shape, R: Follows>(
    table: &Table<S, R>,
    pass: &mut Pass<S, R>,
    local: &R::Local,
    place: u32,
    from: Node,
    field: u8,
) -> Reached
    requires pass { IsPassOf table.now pass.old }
    requires inside { IsInside pass.old }
    requires local { IsLocalOf R.is_local local.now pass.old }
    requires place { place < R.PLACES }
    requires from { HoldsNode pass.old from }
    requires elsewhere { IsElsewhere (origin from) place }
    requires field { field ≡ 3 }
    requires link { MayFollow S.facts (view pass.old) (origin from) 3 (is_first pass.old) }
    ensures pass { IsSamePass pass.old pass.new }
    ensures inside { IsInside pass.new }
    ensures local { IsLocalOf R.is_local local.now pass.new }
    ensures rest { LeavesRecords (view pass.old) (view pass.new) }
    ensures reached { HasFollowed S.facts place (origin from) pass.old result pass.new }
    ensures keeps { KeepsElse place pass.old pass.new }
    ensures does { FollowsByLoad from field (view pass.old).own result (view pass.new).own }
{
    let link = table.reach_frozen(pass, place, from, field);
    let flags = link.flags;
    match link.target {
        Some(target) => {
            let held = Held { place, target };
            Reached::Held { held, flags }
        }
        None => Reached::Null { flags },
    }
}
