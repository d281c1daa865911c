// Locks on links: one exchange tries to lock, and a store takes a lock off.
ghost use Rattle.std.specs.Prelude.{◌≡◌, List, MatchBool, Some, None};
ghost use Rattle.row_words.specs.Refs.{LinkParts};
ghost use Rattle.row_words.specs.Packing.{IsLink};
ghost use Rattle.record_rule.specs.LockedLinks.{HasLocked, locks_left};
ghost use Rattle.record_table.specs.Handles.{view};
ghost use Rattle.record_table.specs.Nodes.{origin, HoldsNode};
ghost use Rattle.record_pieces.specs.Events.{Event, exchanged, stored_link};
ghost use Rattle.reclaim_api.specs.Holds.{KeepsHeld, KeepsButLink};
ghost use Rattle.manager.specs.Callers.{AnswersNone, KeepsOwn, KeepsLocks};
ghost use Rattle.manager.specs.Guards.{IsAtWork, Did, DidAll};
ghost use Rattle.lazy_list.specs.Locking.{locked_with, unlocked, link_to, Locks, IsGuardStill};
ghost use Rattle.lazy_list.specs.Pieces.{tries_lock, FailsToLock};

use crate::shape::LazyShape;
use alloc_api::Allocator;
use manager::Guard;
use pool::Pool;
use reclaim_api::Scheme;
use record_memory::LINK;
use record_table::Node;
use row_words::{Link, Ref};
use set_calls::same_node;

/// Tries once to lock the link of a root or of a held record. `link` is the link as it was loaded, without flags.
/// `false`: it was another by then, or locked, and nothing changed.
pub fn lock<'a, R: Scheme, A: Allocator, P: Pool>(
    guard: &mut Guard<'a, LazyShape, R, A, P>,
    node: &Node,
    link: Link,
) -> bool
    requires at_work { IsAtWork guard.old }
    requires node { HoldsNode guard.old.caller.now.pass node.now }
    requires link { (link.flags ≡ 0) × IsLink link }
    ensures at_work { IsAtWork guard.new }
    ensures same { IsGuardStill guard.old guard.new }
    ensures answers { AnswersNone (view guard.old.caller.now.pass) (view guard.new.caller.now.pass) }
    ensures owns { KeepsOwn (view guard.old.caller.now.pass) (view guard.new.caller.now.pass) }
    ensures keeps { MatchBool result (KeepsButLink (origin node.now) guard.old.caller.now.pass guard.new.caller.now.pass) (KeepsHeld guard.old.caller.now.pass guard.new.caller.now.pass) }
    ensures locks { MatchBool result (Locks (view guard.old.caller.now.pass) (view guard.new.caller.now.pass) (origin node.now) link) (KeepsLocks (view guard.old.caller.now.pass) (view guard.new.caller.now.pass)) }
    ensures did { MatchBool result (Did guard.old (exchanged node.now 3 link (locked_with link) None None) guard.new) ((other : LinkParts) × Did guard.old (exchanged node.now 3 link (locked_with link) None (Some other)) guard.new) }
{
    match guard.exchange_link(same_node(node), LINK, link, link.locked(), None) {
        Ok(()) => true,
        Err(_) => false,
    }
}

/// Takes the lock off a link that this caller has locked. `link` is what that link leads to.
pub fn unlock<'a, R: Scheme, A: Allocator, P: Pool>(
    guard: &mut Guard<'a, LazyShape, R, A, P>,
    node: &Node,
    link: Link,
)
    requires at_work { IsAtWork guard.old }
    requires node { HoldsNode guard.old.caller.now.pass node.now }
    requires locked { HasLocked (view guard.old.caller.now.pass) (origin node.now) 3 (locked_with link) }
    ensures at_work { IsAtWork guard.new }
    ensures same { IsGuardStill guard.old guard.new }
    ensures answers { AnswersNone (view guard.old.caller.now.pass) (view guard.new.caller.now.pass) }
    ensures owns { KeepsOwn (view guard.old.caller.now.pass) (view guard.new.caller.now.pass) }
    ensures keeps { KeepsButLink (origin node.now) guard.old.caller.now.pass guard.new.caller.now.pass }
    ensures locks { (view guard.new.caller.now.pass).own.locks ≡ locks_left (view guard.old.caller.now.pass) (origin node.now) 3 }
    ensures did { Did guard.old (stored_link node.now 3 (locked_with link) (unlocked link) None) guard.new }
{
    guard.store_link(same_node(node), LINK, link.clean(), None);
}

/// Tries once to lock the link of a root or of a held record, as a walk found it: with these flags, and leading there. `false`:
/// it had flags, or was another by then, or locked, and nothing changed.
pub(crate) fn lock_found<'a, R: Scheme, A: Allocator, P: Pool>(
    guard: &mut Guard<'a, LazyShape, R, A, P>,
    node: &Node,
    flags: u8,
    target: Option<Ref>,
) -> bool
    requires at_work { IsAtWork guard.old }
    requires node { HoldsNode guard.old.caller.now.pass node.now }
    ensures at_work { IsAtWork guard.new }
    ensures same { IsGuardStill guard.old guard.new }
    ensures answers { AnswersNone (view guard.old.caller.now.pass) (view guard.new.caller.now.pass) }
    ensures owns { KeepsOwn (view guard.old.caller.now.pass) (view guard.new.caller.now.pass) }
    ensures keeps { MatchBool result (KeepsButLink (origin node.now) guard.old.caller.now.pass guard.new.caller.now.pass) (KeepsHeld guard.old.caller.now.pass guard.new.caller.now.pass) }
    ensures locks { MatchBool result (Locks (view guard.old.caller.now.pass) (view guard.new.caller.now.pass) (origin node.now) (link_to target)) (KeepsLocks (view guard.old.caller.now.pass) (view guard.new.caller.now.pass)) }
    ensures did { MatchBool result ((flags ≡ 0) × DidAll guard.old (tries_lock node.now target None) guard.new) ((es : List Event) × FailsToLock node.now flags target es × DidAll guard.old es guard.new) }
{
    if flags != 0 {
        return false;
    }
    lock(guard, node, Link::to(target))
}
