// An insertion, within a guard.
ghost use Rattle.std.specs.Prelude.{◌≡◌, ◌<◌, ◌≤◌, ◌^◌, ◌++◌, [], List};
ghost use Rattle.record_table.specs.Handles.{setup_of, view};
ghost use Rattle.record_pieces.specs.Events.{Event};
ghost use Rattle.manager.specs.Guards.{IsAtWork, DidAll};
ghost use Rattle.set_calls.specs.Going.{IsSameGuard};
ghost use Rattle.set_calls.specs.Answers.{InsertTells};
ghost use Rattle.list_calls.specs.Records.{OwnsHand};
ghost use Rattle.list_calls.specs.Standing.{IsHome};
ghost use Rattle.lazy_list.specs.Knowing.{AnsweredNone};
ghost use Rattle.lazy_list.specs.Pieces.{Insertings, Inserts};
ghost use Rattle.lazy_list.specs.Tries.{TriedTells, TriedDoes};

use crate::locking::lock_found;
use crate::shape::LazyShape;
use crate::spots::Spot;
use crate::updating::link_locked;
use crate::walking::find;
use alloc_api::Allocator;
use list_calls::{give_back, take_record, target_of};
use manager::Guard;
use pool::Pool;
use reclaim_api::Follows;
use record_memory::LINK;
use record_table::{Node, Own};
use set_calls::{place_seen, same_held};
use set_model::{Call, InsertAnswer};

/// What one try of an insertion came to.
pub enum Tried {
    /// An answer.
    Answered(InsertAnswer),
    /// The record that the next try has, if one was taken: the record with the key is marked, or the predecessor's link
    /// was marked, locked or another.
    Refused(Option<Own>),
}

// One try: a walk, and what comes of it.
fn try_insert<'a, R: Follows, A: Allocator, P: Pool>(
    guard: &mut Guard<'a, LazyShape, R, A, P>,
    root: u32,
    key: u64,
    budget: u32,
    hops: &mut u32,
    hand: Option<Own>,
) -> Tried
    requires at_work { IsAtWork guard.old }
    requires home { IsHome (setup_of guard.old.manager.now.table) root key }
    requires key { key < 2 ^ 40 }
    requires fresh { AnsweredNone guard.old.caller.now.pass }
    requires unlocked { (view guard.old.caller.now.pass).own.locks ≡ [] }
    requires hops { hops.old ≤ budget }
    requires hand { OwnsHand (view guard.old.caller.now.pass) hand }
    ensures at_work { IsAtWork guard.new }
    ensures same { IsSameGuard guard.old guard.new }
    ensures hops { hops.new ≤ budget }
    ensures tells { TriedTells key hops.old hops.new result (view guard.old.caller.now.pass) (view guard.new.caller.now.pass) }
    ensures did { (es : List Event) × DidAll guard.old es guard.new × ((ds : List Event) → Insertings root key hops.old hand ds → TriedDoes root key budget hops.new (ds ++ es) result) }
{
    match find(guard, root, key, budget, hops) {
        None => {
            give_back(guard, hand);
            Tried::Answered(InsertAnswer::Again { hops: *hops })
        }
        Some(Spot::Present { at, .. }) => {
            let link = guard.load_link(Node::At(same_held(&at)), LINK);
            if link.is_marked() {
                return Tried::Refused(hand);
            }
            give_back(guard, hand);
            place_seen(guard, Call::Insert(key), false);
            Tried::Answered(InsertAnswer::Done(false))
        }
        Some(
            Spot::Absent {
                before,
                flags,
                next,
            },
        ) => match take_record(guard, hand) {
            Ok(own) => {
                if !lock_found(guard, &before, flags, target_of(&next)) {
                    return Tried::Refused(Some(own));
                }
                link_locked(guard, root, key, before, next, own);
                Tried::Answered(InsertAnswer::Done(true))
            }
            Err(none) => Tried::Answered(InsertAnswer::Full { found: none.found }),
        },
    }
}

/// Adds the key where it is absent. `root` is `key` modulo the number of roots, `key` is below 2^40, and `budget` is how many
/// hops along the list the call may make. The operation has answered no call, and its caller has no word locked.
///
/// It locks the predecessor's link alone, by one exchange, and waits for no lock: where that is refused a new try begins, each
/// with a walk.
///
/// `Done(true)`: it was added. `Done(false)`: it was there. `Full { found }`: it was absent, no record was left, and the one draw
/// found this. `Again { hops }`: one more hop was needed than the budget.
pub fn insert<'a, R: Follows, A: Allocator, P: Pool>(
    guard: &mut Guard<'a, LazyShape, R, A, P>,
    root: u32,
    key: u64,
    budget: u32,
) -> InsertAnswer
    requires at_work { IsAtWork guard.old }
    requires home { IsHome (setup_of guard.old.manager.now.table) root key }
    requires key { key < 2 ^ 40 }
    requires fresh { AnsweredNone guard.old.caller.now.pass }
    requires unlocked { (view guard.old.caller.now.pass).own.locks ≡ [] }
    ensures at_work { IsAtWork guard.new }
    ensures same { IsSameGuard guard.old guard.new }
    ensures tells { InsertTells key result (view guard.old.caller.now.pass) (view guard.new.caller.now.pass) }
    ensures did { (es : List Event) × Inserts root key budget result es × DidAll guard.old es guard.new }
{
    let mut hops = 0;
    let mut hand = None;
    loop {
        match try_insert(guard, root, key, budget, &mut hops, hand) {
            Tried::Answered(answer) => return answer,
            Tried::Refused(own) => hand = own,
        }
    }
}
