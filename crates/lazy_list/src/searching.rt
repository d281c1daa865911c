// A search, within a guard, and where an absence is placed.
ghost use Rattle.std.specs.Prelude.{◌≡◌, ◌-◌, ℕ, List, Some, None, false};
ghost use Rattle.set_model.specs.Machine.{key_of};
ghost use Rattle.record_table.specs.Handles.{setup_of, view};
ghost use Rattle.record_table.specs.declared.nodes.Node.TheVariants.{At};
ghost use Rattle.record_pieces.specs.Events.{Event, placed};
ghost use Rattle.manager.specs.Guards.{IsAtWork, Did, DidAll};
ghost use Rattle.set_calls.specs.Going.{IsSameGuard};
ghost use Rattle.set_calls.specs.Answers.{Read, SearchTells};
ghost use Rattle.list_calls.specs.Standing.{IsHome, rank};
ghost use Rattle.set_calls.specs.Knowing.{IsAnswer};
ghost use Rattle.list_calls.specs.Records.{target_of};
ghost use Rattle.lazy_list.specs.Knowing.{AnsweredNone, ShowsAbsent};
ghost use Rattle.lazy_list.specs.Places.{IsPlacedBy};
ghost use Rattle.lazy_list.specs.Pieces.{Searches};

use crate::placing::place_at_mark;
use crate::shape::LazyShape;
use crate::spots::Spot;
use crate::walking::find;
use alloc_api::Allocator;
use manager::Guard;
use pool::Pool;
use reclaim_api::{Follows, Scheme};
use record_memory::LINK;
use record_table::{Held, Node};
use row_words::MARK;
use set_calls::{place_seen, same_node};
use set_model::{Call, LookAnswer};

/// Places a removal or a search of `key`, whose place a walk found behind this node, and which wasn't there: by the walk's last
/// look, or, where the node is marked, as `place_at_mark` does. `flags` and `next` are what the walk found of the node's link.
pub fn place_absent<'a, R: Scheme, A: Allocator, P: Pool>(
    guard: &mut Guard<'a, LazyShape, R, A, P>,
    before: &Node,
    flags: u8,
    next: &Option<Held>,
    key: u64,
    call: Call,
)
    requires at_work { IsAtWork guard.old }
    requires absent { ShowsAbsent guard.old.caller.now.pass key before.now (record { flags = flags; target = target_of next.now }) }
    requires call { (key_of call ≡ key) × IsAnswer call false false }
    ensures at_work { IsAtWork guard.new }
    ensures same { IsSameGuard guard.old guard.new }
    ensures tells { Read call false (view guard.old.caller.now.pass) (view guard.new.caller.now.pass) }
    ensures start { (view guard.new.caller.now.pass).own.guard ≡ (view guard.old.caller.now.pass).own.guard }
    ensures seen { (view guard.new.caller.now.pass).seen_updates ≡ (view guard.old.caller.now.pass).seen_updates }
    ensures did { (shown : ℕ) × IsPlacedBy (view guard.old.caller.now.pass) (rank guard.old.caller.now.pass before.now - 1) (record { flags = flags; target = target_of next.now }) shown × Did guard.old (placed call false shown) guard.new }
{
    let _leads_to = next;
    if flags % 2 == MARK {
        place_at_mark(guard, before, key, call);
    } else {
        place_seen(guard, call, false);
    }
}

/// Asks whether the key is in the set: one walk, along every link, marked or not, and one look at the record with the key, if
/// there is one. `root` is `key` modulo the number of roots, and `budget` is how many hops the walk may make. The operation has
/// answered no call.
///
/// `Done(true)`: it is. `Done(false)`: it isn't. `Again { hops }`: one more hop was needed than the budget.
pub fn search<'a, R: Follows, A: Allocator, P: Pool>(
    guard: &mut Guard<'a, LazyShape, R, A, P>,
    root: u32,
    key: u64,
    budget: u32,
) -> LookAnswer
    requires at_work { IsAtWork guard.old }
    requires home { IsHome (setup_of guard.old.manager.now.table) root key }
    requires fresh { AnsweredNone guard.old.caller.now.pass }
    ensures at_work { IsAtWork guard.new }
    ensures same { IsSameGuard guard.old guard.new }
    ensures tells { SearchTells key result (view guard.old.caller.now.pass) (view guard.new.caller.now.pass) }
    ensures did { (es : List Event) × Searches root key (view guard.new.caller.now.pass).own.guard.start_updates (view guard.new.caller.now.pass).seen_updates budget result es × DidAll guard.old es guard.new }
{
    let mut hops = 0;
    match find(guard, root, key, budget, &mut hops) {
        None => LookAnswer::Again { hops },
        Some(Spot::Present { at, .. }) => {
            let node = Node::At(at);
            let link = guard.load_link(same_node(&node), LINK);
            if link.is_marked() {
                place_at_mark(guard, &node, key, Call::Search(key));
                return LookAnswer::Done(false);
            }
            place_seen(guard, Call::Search(key), true);
            LookAnswer::Done(true)
        }
        Some(
            Spot::Absent {
                before,
                flags,
                next,
            },
        ) => {
            place_absent(guard, &before, flags, &next, key, Call::Search(key));
            LookAnswer::Done(false)
        }
    }
}
