// Stores in links of roots and of held records by the callers that have them locked. Each takes the lock off.
ghost use Rattle.std.specs.Prelude.{◌≡◌, ℕ, ◌≤◌, List, Option, Some, None, drop};
ghost use Rattle.record_memory.specs.declared.steps.StepKind.TheVariants.{Store};
ghost use Rattle.record_memory.specs.declared.steps.Word.TheVariants.{Field};
ghost use Rattle.record_memory.specs.Memory.{address};
ghost use Rattle.row_words.specs.Refs.{LinkParts};
ghost use Rattle.row_words.specs.Packing.{IsLink};
ghost use Rattle.record_rule.specs.Facts.{HasLock, Near};
ghost use Rattle.record_rule.specs.HandingOut.{HasOwn};
ghost use Rattle.record_rule.specs.Kinds.{Lawful};
ghost use Rattle.record_rule.specs.Links.{link_word, near_of, index_of, IsNextOf, Decides};
ghost use Rattle.record_rule.specs.LockedLinks.{HasLocked, StoredLink, PublishedLocked, UnlinkedLocked};
ghost use Rattle.record_table.specs.Handles.{setup_of, rule, view, seat_of, IsPassOf, IsSamePass};
ghost use Rattle.record_table.specs.Nodes.{origin, origin_held, IsInTable, HoldsThere, HoldsNode};
ghost use Rattle.record_table.specs.Recording.{Records};

use crate::hand_out::Own;
use crate::nodes::{Held, Node};
use crate::passes::Pass;
use crate::plays::Tells;
use crate::retiring::TakenOut;
use crate::table::Table;
use record_rule::{Cover, Shape};
use row_words::{Link, pack_link};
use set_model::Call;
use std::marker::Brand;

impl<S: Shape, R: Cover> Table<S, R> {
    // Stores a node's link. What the step tells is the caller's to pick, and what the pick reads beside the link is
    // an argument, too.
    fn store_on<M: Tells, A>(
        &self,
        pass: &mut Pass<S, R>,
        node: Node,
        field: u8,
        new: Link,
        _about: &A,
    )
        requires pass { IsPassOf self.now pass.old }
        requires node { IsInTable (setup_of self.now) (origin node) }
        requires field { field ≡ 3 }
        requires lawful { Lawful (rule S.facts R.facts self.now) (seat_of pass.old) (view pass.old) (address (setup_of self.now).callers (Field (index_of (origin node)) 3))
            (λ _. link_word (setup_of self.now) (origin node) new) (M.tells (view pass.old)) }
        requires recorded { Records Store (Field (index_of (origin node)) 3) (λ _. link_word (setup_of self.now) (origin node) new) M.tells (view pass.old) }
        ensures pass { IsSamePass pass.old pass.new }
        ensures told { (found : ℕ) × M.tells (view pass.old) found (view pass.new) }
    {
        let generation = self.generation_of(&node);
        let word = self.word_of(&node, field);
        let value = pack_link(generation, new);
        self.store::<M, _>(pass, word, value, &());
    }

    /// Stores another link in a link of a root or of a held record that this caller has locked, where the
    /// set allows that for the link that is there. `field` is 3, and `new` hasn't the flag `LOCK`.
    /// `decides` names the call, an insertion or a removal, that the step decides.
    pub fn store_link(
        &self,
        pass: &mut Pass<S, R>,
        node: Node,
        field: u8,
        new: Link,
        decides: Option<Call>,
    )
        requires pass { IsPassOf self.now pass.old }
        requires node { HoldsNode pass.old node }
        requires field { field ≡ 3 }
        requires link { IsLink new }
        requires unlocked { ¬ HasLock new }
        requires decides { Decides S.facts (view pass.old) decides }
        requires allowed { (old : LinkParts) × HasLocked (view pass.old) (origin node) 3 old
            × S.facts.may_exchange (setup_of self.now) (near_of (view pass.old) (origin node)) 3 old new decides }
        ensures pass { IsSamePass pass.old pass.new }
        ensures step { (old : LinkParts) × HasLocked (view pass.old) (origin node) 3 old
            × StoredLink S.facts (view pass.old) (origin node) 3 old new decides (view pass.new) }
    {
        self.store_on::<Brand, _>(pass, node, field, new, &decides);
    }

    /// Links an own record behind a root or a held record whose link this caller has locked, without
    /// flags, where the set allows that. `field` is 3, and `decides` is as for `store_link`.
    pub fn publish_locked(
        &self,
        pass: &mut Pass<S, R>,
        node: Node,
        field: u8,
        own: Own,
        decides: Option<Call>,
    )
        requires pass { IsPassOf self.now pass.old }
        requires node { HoldsNode pass.old node }
        requires field { field ≡ 3 }
        requires decides { Decides S.facts (view pass.old) decides }
        requires allowed { (old : LinkParts) × (row : List ℕ) × (next : Option Near) × HasLocked (view pass.old) (origin node) 3 old × HasOwn (view pass.old) own row
            × IsNextOf (view pass.old) old.target next × S.facts.may_publish (setup_of self.now) (near_of (view pass.old) (origin node)) 3 old (drop 3 row) next decides }
        ensures pass { IsSamePass pass.old pass.new }
        ensures step { (old : LinkParts) × HasLocked (view pass.old) (origin node) 3 old
            × PublishedLocked S.facts (view pass.old) (origin node) 3 old own decides (view pass.new) }
    {
        let Own { record } = own;
        let new = Link::to(Some(record));
        self.store_on::<Brand, _>(pass, node, field, new, &(record, decides));
    }

    /// Takes a held record out behind a root or a held record whose link, which leads to `gone`, this
    /// caller has locked, where the set allows that: `new` stands there then. `field` is 3.
    pub fn unlink_locked(
        &self,
        pass: &mut Pass<S, R>,
        node: Node,
        field: u8,
        gone: Held,
        new: Link,
    ) -> TakenOut
        requires pass { IsPassOf self.now pass.old }
        requires node { HoldsNode pass.old node }
        requires gone { HoldsThere pass.old gone }
        requires field { field ≡ 3 }
        requires link { IsLink new }
        requires allowed { (old : LinkParts) × HasLocked (view pass.old) (origin node) 3 old × (old.target ≡ Some gone.target)
            × S.facts.may_unlink (setup_of self.now) (near_of (view pass.old) (origin node)) 3 old (near_of (view pass.old) (origin_held gone)) new None None }
        ensures pass { IsSamePass pass.old pass.new }
        ensures record { result ≡ gone.target }
        ensures step { (old : LinkParts) × HasLocked (view pass.old) (origin node) 3 old
            × UnlinkedLocked S.facts (view pass.old) (origin node) 3 old gone.target new (view pass.new) }
    {
        let record = gone.target;
        self.store_on::<Brand, _>(pass, node, field, new, &record);
        TakenOut { record }
    }
}
