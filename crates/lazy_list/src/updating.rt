// What an update does to links that it has locked: it links a record, marks one, or takes one out.
ghost use Rattle.std.specs.Prelude.{◌≡◌, ◌<◌, ◌^◌, ◌+◌, ℕ, Option, Some};
ghost use Rattle.set_model.specs.declared.calls.Call.TheVariants.{Insert, Remove};
ghost use Rattle.row_words.specs.Packing.{IsLink};
ghost use Rattle.record_rule.specs.HandingOut.{IsOwnOf};
ghost use Rattle.record_rule.specs.LockedLinks.{HasLocked, locks_left};
ghost use Rattle.record_table.specs.Handles.{setup_of, view};
ghost use Rattle.record_table.specs.Nodes.{origin, origin_held, HoldsNode, HoldsThere};
ghost use Rattle.record_table.specs.declared.nodes.Node.TheVariants.{At};
ghost use Rattle.record_pieces.specs.Events.{stored_link};
ghost use Rattle.reclaim_api.specs.Holds.{KeepsButLink};
ghost use Rattle.manager.specs.Callers.{AnswersNone, KeepsOwn};
ghost use Rattle.manager.specs.Guards.{IsAtWork, Did, DidAll};
ghost use Rattle.set_calls.specs.Answers.{Decided};
ghost use Rattle.list_facts.specs.Steps.{marked_with};
ghost use Rattle.list_calls.specs.Records.{target_of};
ghost use Rattle.list_calls.specs.Standing.{IsHome, StandsAt, StandsBefore, IsBeyond, rank};
ghost use Rattle.lazy_list.specs.Locking.{locked_with, unlocked, locked_to, IsGuardStill, IsMarkNoted};
ghost use Rattle.lazy_list.specs.Pieces.{links_locked, takes_out_locked};

use crate::shape::LazyShape;
use alloc_api::Allocator;
use list_calls::target_of;
use manager::Guard;
use pool::Pool;
use reclaim_api::Scheme;
use record_memory::{KEY, LINK};
use record_table::{Held, Node, Own};
use row_words::{Link, pack_ref};
use set_calls::{same_held, same_node};
use set_model::Call;

/// Fills the record and links it behind a node whose link this caller has locked, which decides the insertion and takes
/// the lock off. `root` is `key` modulo the number of roots, and `key` is below 2^40. `next` is the record that the locked
/// link leads to, if there is one.
pub fn link_locked<'a, R: Scheme, A: Allocator, P: Pool>(
    guard: &mut Guard<'a, LazyShape, R, A, P>,
    root: u32,
    key: u64,
    before: Node,
    next: Option<Held>,
    mut own: Own,
)
    requires at_work { IsAtWork guard.old }
    requires home { IsHome (setup_of guard.old.manager.now.table) root key }
    requires key { key < 2 ^ 40 }
    requires before { StandsBefore guard.old.caller.now.pass root key before }
    requires next { IsBeyond guard.old.caller.now.pass root key next }
    requires own { IsOwnOf (view guard.old.caller.now.pass) own }
    requires locked { HasLocked (view guard.old.caller.now.pass) (origin before) 3 (locked_to (target_of next)) }
    ensures at_work { IsAtWork guard.new }
    ensures same { IsGuardStill guard.old guard.new }
    ensures tells { Decided (Insert key) (view guard.old.caller.now.pass) (view guard.new.caller.now.pass) }
    ensures locks { (view guard.new.caller.now.pass).own.locks ≡ locks_left (view guard.old.caller.now.pass) (origin before) 3 }
    ensures did { DidAll guard.old (links_locked key before next own) guard.new }
{
    guard.store_own(&mut own, KEY, key);
    guard.store_own(&mut own, LINK, pack_ref(target_of(&next)));
    let decides = Some(Call::Insert(key));
    guard.publish_locked(before, LINK, own, decides);
}

/// Marks a held record whose link this caller has locked, which decides the removal of its key and takes the lock off.
/// `link` is what that link leads to.
pub fn mark_locked<'a, R: Scheme, A: Allocator, P: Pool>(
    guard: &mut Guard<'a, LazyShape, R, A, P>,
    root: u32,
    key: u64,
    at: &Held,
    link: Link,
)
    requires at_work { IsAtWork guard.old }
    requires at { StandsAt guard.old.caller.now.pass root (At at.now) × (rank guard.old.caller.now.pass (At at.now) ≡ key + 1) }
    requires locked { HasLocked (view guard.old.caller.now.pass) (origin_held at.now) 3 (locked_with link) }
    ensures at_work { IsAtWork guard.new }
    ensures same { IsGuardStill guard.old guard.new }
    ensures keeps { KeepsButLink (origin_held at.now) guard.old.caller.now.pass guard.new.caller.now.pass }
    ensures tells { Decided (Remove key) (view guard.old.caller.now.pass) (view guard.new.caller.now.pass) }
    ensures noted { IsMarkNoted guard.new.caller.now.pass at.now link }
    ensures locks { (view guard.new.caller.now.pass).own.locks ≡ locks_left (view guard.old.caller.now.pass) (origin_held at.now) 3 }
    ensures did { Did guard.old (stored_link (At at.now) 3 (locked_with link) (marked_with link) (Some (Remove key))) guard.new }
{
    let decides = Some(Call::Remove(key));
    guard.store_link(Node::At(same_held(at)), LINK, link.marked(), decides);
}

/// Takes a marked record out behind a node whose link this caller has locked and which leads to it, which takes the lock
/// off, and retires the record. `link` is the record's link without its mark.
pub fn take_out_locked<'a, R: Scheme, A: Allocator, P: Pool>(
    guard: &mut Guard<'a, LazyShape, R, A, P>,
    before: &Node,
    gone: &Held,
    link: Link,
)
    requires at_work { IsAtWork guard.old }
    requires before { HoldsNode guard.old.caller.now.pass before.now }
    requires gone { HoldsThere guard.old.caller.now.pass gone.now }
    requires link { (link.flags ≡ 0) × IsLink link }
    requires marked { IsMarkNoted guard.old.caller.now.pass gone.now link }
    requires locked { HasLocked (view guard.old.caller.now.pass) (origin before.now) 3 (locked_to (Some gone.now.target)) }
    ensures at_work { IsAtWork guard.new }
    ensures same { IsGuardStill guard.old guard.new }
    ensures answers { AnswersNone (view guard.old.caller.now.pass) (view guard.new.caller.now.pass) }
    ensures owns { KeepsOwn (view guard.old.caller.now.pass) (view guard.new.caller.now.pass) }
    ensures locks { (view guard.new.caller.now.pass).own.locks ≡ locks_left (view guard.old.caller.now.pass) (origin before.now) 3 }
    ensures did { DidAll guard.old (takes_out_locked before.now gone.now link) guard.new }
{
    let taken = guard.unlink_locked(same_node(before), LINK, same_held(gone), link);
    guard.retire(taken);
}
