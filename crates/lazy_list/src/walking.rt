// A walk along a list, hop by hop. It follows every link, marked or not, and so never starts again.
ghost use Rattle.std.specs.Prelude.{◌≡◌, ◌<◌, ◌≤◌, ◌+◌, [], ◌∷◌, ℕ, List, Option, Some, MatchOption};
ghost use Rattle.row_words.specs.Refs.{LinkParts};
ghost use Rattle.record_table.specs.Handles.{setup_of, view};
ghost use Rattle.record_table.specs.declared.nodes.Node.TheVariants.{At};
ghost use Rattle.record_pieces.specs.Events.{Event, keyed};
ghost use Rattle.manager.specs.Guards.{IsAtWork, DidAll};
ghost use Rattle.set_calls.specs.Going.{GoesOn};
ghost use Rattle.list_calls.specs.Standing.{IsHome, StandsBefore, rank};
ghost use Rattle.lazy_list.specs.Walks.{Looks, Hops, Finds};
ghost use Rattle.lazy_list.specs.Knowing.{AnsweredNone, HasReachedNext, IsLanding, IsNext, IsSpot, low_of, seen_of};

use crate::shape::LazyShape;
use crate::spots::{Landing, Spot};
use alloc_api::Allocator;
use list_calls::place_behind;
use manager::Guard;
use pool::Pool;
use reclaim_api::{Follows, Reached};
use record_memory::LINK;
use record_table::{Held, Node};
use set_calls::{same_held, same_node};

// Loads the key of a record that the hop from `before` reached. `flags` are those of the link that led there.
fn read<'a, R: Follows, A: Allocator, P: Pool>(
    guard: &mut Guard<'a, LazyShape, R, A, P>,
    root: u32,
    before: &Node,
    flags: u8,
    at: &Held,
    key: u64,
) -> u64
    requires at_work { IsAtWork guard.old }
    requires reached { HasReachedNext guard.old.caller.now.pass root key before.now (record { flags = flags; target = Some at.now.target }) at.now }
    ensures at_work { IsAtWork guard.new }
    ensures on { GoesOn guard.old guard.new }
    ensures seen { (view guard.new.caller.now.pass).own.updates_seen ≡ (view guard.old.caller.now.pass).own.updates_seen }
    ensures reached { HasReachedNext guard.new.caller.now.pass root key before.now (record { flags = flags; target = Some at.now.target }) at.now }
    ensures low { rank guard.new.caller.now.pass before.now ≡ rank guard.old.caller.now.pass before.now }
    ensures key { rank guard.new.caller.now.pass (At at.now) ≡ result + 1 }
    ensures did { DidAll guard.old (keyed at.now.target result ∷ []) guard.new }
{
    guard.load_key(same_held(at))
}

// Looks at the key of a record that the hop from `before` reached, and goes where that tells. `flags` are as for `read`.
fn look<'a, R: Follows, A: Allocator, P: Pool>(
    guard: &mut Guard<'a, LazyShape, R, A, P>,
    root: u32,
    before: Node,
    flags: u8,
    at: Held,
    key: u64,
) -> Landing
    requires at_work { IsAtWork guard.old }
    requires reached { HasReachedNext guard.old.caller.now.pass root key before (record { flags = flags; target = Some at.target }) at }
    ensures at_work { IsAtWork guard.new }
    ensures on { GoesOn guard.old guard.new }
    ensures seen { (view guard.new.caller.now.pass).own.updates_seen ≡ (view guard.old.caller.now.pass).own.updates_seen }
    ensures landing { IsLanding guard.new.caller.now.pass root key (rank guard.old.caller.now.pass before) result }
    ensures did { (es : List Event) × Looks key before flags at result es × DidAll guard.old es guard.new }
{
    let found = read(guard, root, &before, flags, &at, key);
    if found < key {
        return Landing::On { at, key: found };
    }
    if found == key {
        return Landing::Found(Spot::Present { before, flags, at });
    }
    let next = Some(at);
    Landing::Found(Spot::Absent {
        before,
        flags,
        next,
    })
}

// One hop.
fn hop<'a, R: Follows, A: Allocator, P: Pool>(
    guard: &mut Guard<'a, LazyShape, R, A, P>,
    root: u32,
    before: &Node,
    key: u64,
) -> Landing
    requires at_work { IsAtWork guard.old }
    requires home { IsHome (setup_of guard.old.manager.now.table) root key }
    requires fresh { AnsweredNone guard.old.caller.now.pass }
    requires before { StandsBefore guard.old.caller.now.pass root key before.now }
    ensures at_work { IsAtWork guard.new }
    ensures on { GoesOn guard.old guard.new }
    ensures landing { IsLanding guard.new.caller.now.pass root key (rank guard.old.caller.now.pass before.now) result }
    ensures did { (es : List Event) × Hops key before.now (view guard.new.caller.now.pass).own.updates_seen result es × DidAll guard.old es guard.new }
{
    let place = place_behind(before);
    match guard.hold_frozen(place, same_node(before), LINK) {
        Reached::Null { flags } => {
            let before = same_node(before);
            let next = None;
            Landing::Found(Spot::Absent {
                before,
                flags,
                next,
            })
        }
        Reached::Held { held, flags } => {
            let from = same_node(before);
            look(guard, root, from, flags, held, key)
        }
    }
}

// The record from which the next hop goes, where there is one.
fn go_on(landing: Landing) -> Result<Node, Spot>
    ensures { IsNext landing result }
{
    match landing {
        Landing::On { at, key: _ } => Ok(Node::At(at)),
        Landing::Found(spot) => Err(spot),
    }
}

/// Walks from the root to the place of the key, until `hops` has come to `budget`. `root` is `key` modulo the number of
/// roots, and each hop adds 1 to `hops`, which is at most `budget`. `None`: one more is needed. The operation has answered
/// no call.
pub fn find<'a, R: Follows, A: Allocator, P: Pool>(
    guard: &mut Guard<'a, LazyShape, R, A, P>,
    root: u32,
    key: u64,
    budget: u32,
    hops: &mut u32,
) -> Option<Spot>
    requires at_work { IsAtWork guard.old }
    requires home { IsHome (setup_of guard.old.manager.now.table) root key }
    requires fresh { AnsweredNone guard.old.caller.now.pass }
    requires hops { hops.old ≤ budget }
    ensures at_work { IsAtWork guard.new }
    ensures on { GoesOn guard.old guard.new }
    ensures hops { hops.new ≤ budget }
    ensures spot { MatchOption result (hops.new ≡ budget) (λ spot. (hops.old < hops.new) × IsSpot guard.new.caller.now.pass root key spot) }
    ensures did { (made : ℕ) × (es : List Event) × (hops.new ≡ hops.old + made) × Finds key root made (low_of guard.new.caller.now.pass result) result (seen_of (view guard.new.caller.now.pass) result) es × DidAll guard.old es guard.new }
{
    let mut before = Node::Root(root);
    while *hops < budget {
        *hops += 1;
        let landing = hop(guard, root, &before, key);
        match go_on(landing) {
            Ok(node) => before = node,
            Err(spot) => return Some(spot),
        }
    }
    None
}
