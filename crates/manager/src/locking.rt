// A caller's stores in links of roots and of held records that it has locked.
ghost use Rattle.std.specs.Prelude.{◌≡◌, ℕ, List, Option, Some, None, drop};
ghost use Rattle.record_memory.specs.declared.books.Share.{Share};
ghost use Rattle.row_words.specs.Refs.{LinkParts};
ghost use Rattle.row_words.specs.Packing.{IsLink};
ghost use Rattle.record_rule.specs.Facts.{HasLock, Near};
ghost use Rattle.record_rule.specs.HandingOut.{HasOwn};
ghost use Rattle.record_rule.specs.Links.{near_of, IsNextOf, Decides, HasTaken};
ghost use Rattle.record_rule.specs.LockedLinks.{HasLocked, StoredLink, PublishedLocked, UnlinkedLocked, locks_left};
ghost use Rattle.record_table.specs.Handles.{setup_of, view, IsPassOf, IsSamePass};
ghost use Rattle.record_table.specs.Nodes.{origin, origin_held, HoldsThere, HoldsNode};
ghost use Rattle.reclaim_api.specs.Holds.{KeepsButLink};
ghost use Rattle.record_pieces.specs.Events.{KeepsStock, stored_link, published_locked, unlinked_locked};
ghost use Rattle.manager.specs.Callers.{IsWorking, AnswersNone, KeepsOwn, KeepsOwnBut};
ghost use Rattle.manager.specs.Guards.{IsAtWork, Did};

use crate::types::{Caller, Guard};
use alloc_api::Allocator;
use pool::Pool;
use reclaim_api::Scheme;
use record_table::{Held, Node, Own, Shape, Table, TakenOut};
use row_words::Link;
use set_model::Call;

fn store_link<S: Shape, R: Scheme>(
    table: &Table<S, R>,
    caller: &mut Caller<S, R>,
    node: Node,
    field: u8,
    new: Link,
    decides: Option<Call>,
)
    requires of { IsPassOf table.now caller.old.pass }
    requires caller { IsWorking R.is_local caller.old }
    requires node { HoldsNode caller.old.pass node }
    requires field { field ≡ 3 }
    requires link { IsLink new }
    requires unlocked { ¬ HasLock new }
    requires decides { Decides S.facts (view caller.old.pass) decides }
    requires allowed { (old : LinkParts) × HasLocked (view caller.old.pass) (origin node) 3 old
        × S.facts.may_exchange (setup_of table.now) (near_of (view caller.old.pass) (origin node)) 3 old new decides }
    ensures of { IsPassOf table.now caller.new.pass }
    ensures caller { IsWorking R.is_local caller.new }
    ensures pass { IsSamePass caller.old.pass caller.new.pass }
    ensures keeps { KeepsButLink (origin node) caller.old.pass caller.new.pass }
    ensures answers { decides ≡ None → AnswersNone (view caller.old.pass) (view caller.new.pass) }
    ensures owns { KeepsOwn (view caller.old.pass) (view caller.new.pass) }
    ensures stock { KeepsStock (view caller.old.pass).own (view caller.new.pass).own }
    ensures locks { (view caller.new.pass).own.locks ≡ locks_left (view caller.old.pass) (origin node) 3 }
    ensures step { (old : LinkParts) × HasLocked (view caller.old.pass) (origin node) 3 old
        × StoredLink S.facts (view caller.old.pass) (origin node) 3 old new decides (view caller.new.pass) }
{
    table.store_link(&mut caller.pass, node, field, new, decides);
}

fn publish_locked<S: Shape, R: Scheme>(
    table: &Table<S, R>,
    caller: &mut Caller<S, R>,
    node: Node,
    field: u8,
    own: Own,
    decides: Option<Call>,
)
    requires of { IsPassOf table.now caller.old.pass }
    requires caller { IsWorking R.is_local caller.old }
    requires node { HoldsNode caller.old.pass node }
    requires field { field ≡ 3 }
    requires decides { Decides S.facts (view caller.old.pass) decides }
    requires allowed { (old : LinkParts) × (row : List ℕ) × (next : Option Near) × HasLocked (view caller.old.pass) (origin node) 3 old × HasOwn (view caller.old.pass) own row
        × IsNextOf (view caller.old.pass) old.target next × S.facts.may_publish (setup_of table.now) (near_of (view caller.old.pass) (origin node)) 3 old (drop 3 row) next decides }
    ensures of { IsPassOf table.now caller.new.pass }
    ensures caller { IsWorking R.is_local caller.new }
    ensures pass { IsSamePass caller.old.pass caller.new.pass }
    ensures keeps { KeepsButLink (origin node) caller.old.pass caller.new.pass }
    ensures answers { decides ≡ None → AnswersNone (view caller.old.pass) (view caller.new.pass) }
    ensures owns { KeepsOwnBut own.index (view caller.old.pass) (view caller.new.pass) }
    ensures stock { KeepsStock (view caller.old.pass).own (view caller.new.pass).own }
    ensures locks { (view caller.new.pass).own.locks ≡ locks_left (view caller.old.pass) (origin node) 3 }
    ensures step { (old : LinkParts) × HasLocked (view caller.old.pass) (origin node) 3 old
        × PublishedLocked S.facts (view caller.old.pass) (origin node) 3 old own decides (view caller.new.pass) }
{
    table.publish_locked(&mut caller.pass, node, field, own, decides);
}

fn unlink_locked<S: Shape, R: Scheme>(
    table: &Table<S, R>,
    caller: &mut Caller<S, R>,
    node: Node,
    field: u8,
    gone: Held,
    new: Link,
) -> TakenOut
    requires of { IsPassOf table.now caller.old.pass }
    requires caller { IsWorking R.is_local caller.old }
    requires node { HoldsNode caller.old.pass node }
    requires gone { HoldsThere caller.old.pass gone }
    requires field { field ≡ 3 }
    requires link { IsLink new }
    requires allowed { (old : LinkParts) × HasLocked (view caller.old.pass) (origin node) 3 old × (old.target ≡ Some gone.target)
        × S.facts.may_unlink (setup_of table.now) (near_of (view caller.old.pass) (origin node)) 3 old (near_of (view caller.old.pass) (origin_held gone)) new None None }
    ensures of { IsPassOf table.now caller.new.pass }
    ensures caller { IsWorking R.is_local caller.new }
    ensures pass { IsSamePass caller.old.pass caller.new.pass }
    ensures record { result ≡ gone.target }
    ensures keeps { KeepsButLink (origin node) caller.old.pass caller.new.pass }
    ensures answers { AnswersNone (view caller.old.pass) (view caller.new.pass) }
    ensures owns { KeepsOwn (view caller.old.pass) (view caller.new.pass) }
    ensures stock { KeepsStock (view caller.old.pass).own (view caller.new.pass).own }
    ensures locks { (view caller.new.pass).own.locks ≡ locks_left (view caller.old.pass) (origin node) 3 }
    ensures step { (old : LinkParts) × HasLocked (view caller.old.pass) (origin node) 3 old × (old.target ≡ Some gone.target)
        × UnlinkedLocked S.facts (view caller.old.pass) (origin node) 3 old gone.target new (view caller.new.pass) }
{
    table.unlink_locked(&mut caller.pass, node, field, gone, new)
}

impl<'a, S: Shape, R: Scheme, A: Allocator, P: Pool> Guard<'a, S, R, A, P> {
    /// Stores another link in a link of a root or of a held record that this caller has locked, which takes
    /// the lock off, where the set allows that for the link that is there. `field` is 3, and `new` hasn't
    /// the flag `LOCK`. `decides` names the call, an insertion or a removal, that the step decides.
    pub fn store_link(&mut self, node: Node, field: u8, new: Link, decides: Option<Call>)
        requires at_work { IsAtWork self.old }
        requires node { HoldsNode self.old.caller.now.pass node }
        requires field { field ≡ 3 }
        requires link { IsLink new }
        requires unlocked { ¬ HasLock new }
        requires decides { Decides S.facts (view self.old.caller.now.pass) decides }
        requires allowed { (old : LinkParts) × HasLocked (view self.old.caller.now.pass) (origin node) 3 old
            × S.facts.may_exchange (setup_of self.old.manager.now.table) (near_of (view self.old.caller.now.pass) (origin node)) 3 old new decides }
        ensures same_reference { (self.new.caller.ghost_name ≡ self.old.caller.ghost_name) × (self.new.manager.now ≡ self.old.manager.now) }
        ensures at_work { IsAtWork self.new }
        ensures pass { IsSamePass self.old.caller.now.pass self.new.caller.now.pass }
        ensures keeps { KeepsButLink (origin node) self.old.caller.now.pass self.new.caller.now.pass }
        ensures answers { decides ≡ None → AnswersNone (view self.old.caller.now.pass) (view self.new.caller.now.pass) }
        ensures owns { KeepsOwn (view self.old.caller.now.pass) (view self.new.caller.now.pass) }
        ensures locks { (view self.new.caller.now.pass).own.locks ≡ locks_left (view self.old.caller.now.pass) (origin node) 3 }
        ensures step { (old : LinkParts) × HasLocked (view self.old.caller.now.pass) (origin node) 3 old
            × StoredLink S.facts (view self.old.caller.now.pass) (origin node) 3 old new decides (view self.new.caller.now.pass) }
        ensures did { (old : LinkParts) × HasLocked (view self.old.caller.now.pass) (origin node) 3 old × Did self.old (stored_link node 3 old new decides) self.new }
    {
        store_link(&self.manager.table, self.caller, node, field, new, decides);
    }

    /// Links an own record behind a root or a held record whose link this caller has locked, without
    /// flags, which takes the lock off, where the set allows that. `field` and `decides` are as for
    /// `store_link`.
    pub fn publish_locked(&mut self, node: Node, field: u8, own: Own, decides: Option<Call>)
        requires at_work { IsAtWork self.old }
        requires node { HoldsNode self.old.caller.now.pass node }
        requires field { field ≡ 3 }
        requires decides { Decides S.facts (view self.old.caller.now.pass) decides }
        requires allowed { (old : LinkParts) × (row : List ℕ) × (next : Option Near) × HasLocked (view self.old.caller.now.pass) (origin node) 3 old × HasOwn (view self.old.caller.now.pass) own row
            × IsNextOf (view self.old.caller.now.pass) old.target next × S.facts.may_publish (setup_of self.old.manager.now.table) (near_of (view self.old.caller.now.pass) (origin node)) 3 old (drop 3 row) next decides }
        ensures same_reference { (self.new.caller.ghost_name ≡ self.old.caller.ghost_name) × (self.new.manager.now ≡ self.old.manager.now) }
        ensures at_work { IsAtWork self.new }
        ensures pass { IsSamePass self.old.caller.now.pass self.new.caller.now.pass }
        ensures keeps { KeepsButLink (origin node) self.old.caller.now.pass self.new.caller.now.pass }
        ensures answers { decides ≡ None → AnswersNone (view self.old.caller.now.pass) (view self.new.caller.now.pass) }
        ensures owns { KeepsOwnBut own.index (view self.old.caller.now.pass) (view self.new.caller.now.pass) }
        ensures locks { (view self.new.caller.now.pass).own.locks ≡ locks_left (view self.old.caller.now.pass) (origin node) 3 }
        ensures step { (old : LinkParts) × HasLocked (view self.old.caller.now.pass) (origin node) 3 old
            × PublishedLocked S.facts (view self.old.caller.now.pass) (origin node) 3 old own decides (view self.new.caller.now.pass) }
        ensures did { (old : LinkParts) × HasLocked (view self.old.caller.now.pass) (origin node) 3 old × Did self.old (published_locked node 3 old own decides) self.new }
    {
        publish_locked(&self.manager.table, self.caller, node, field, own, decides);
    }

    /// Takes a held record out behind a root or a held record whose link, which leads to `gone`, this
    /// caller has locked, where the set allows that: `new` stands there then, without the lock. `field`
    /// is 3.
    pub fn unlink_locked(&mut self, node: Node, field: u8, gone: Held, new: Link) -> TakenOut
        requires at_work { IsAtWork self.old }
        requires node { HoldsNode self.old.caller.now.pass node }
        requires gone { HoldsThere self.old.caller.now.pass gone }
        requires field { field ≡ 3 }
        requires link { IsLink new }
        requires allowed { (old : LinkParts) × HasLocked (view self.old.caller.now.pass) (origin node) 3 old × (old.target ≡ Some gone.target)
            × S.facts.may_unlink (setup_of self.old.manager.now.table) (near_of (view self.old.caller.now.pass) (origin node)) 3 old (near_of (view self.old.caller.now.pass) (origin_held gone)) new None None }
        ensures same_reference { (self.new.caller.ghost_name ≡ self.old.caller.ghost_name) × (self.new.manager.now ≡ self.old.manager.now) }
        ensures at_work { IsAtWork self.new }
        ensures pass { IsSamePass self.old.caller.now.pass self.new.caller.now.pass }
        ensures record { result ≡ gone.target }
        ensures keeps { KeepsButLink (origin node) self.old.caller.now.pass self.new.caller.now.pass }
        ensures answers { AnswersNone (view self.old.caller.now.pass) (view self.new.caller.now.pass) }
        ensures owns { KeepsOwn (view self.old.caller.now.pass) (view self.new.caller.now.pass) }
        ensures locks { (view self.new.caller.now.pass).own.locks ≡ locks_left (view self.old.caller.now.pass) (origin node) 3 }
        ensures step { (old : LinkParts) × HasLocked (view self.old.caller.now.pass) (origin node) 3 old × (old.target ≡ Some gone.target)
            × UnlinkedLocked S.facts (view self.old.caller.now.pass) (origin node) 3 old gone.target new (view self.new.caller.now.pass) }
        ensures taken { (h : Share) × HasTaken (view self.new.caller.now.pass) result h }
        ensures did { (old : LinkParts) × HasLocked (view self.old.caller.now.pass) (origin node) 3 old × Did self.old (unlinked_locked node 3 old gone.target new) self.new }
    {
        unlink_locked(&self.manager.table, self.caller, node, field, gone, new)
    }
}
