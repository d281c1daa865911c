// A walk along a list, hop by hop.
ghost use Rattle.std.specs.Prelude.{◌≡◌, ◌<◌, ◌≤◌, ◌+◌, ℕ, List, Option, Some, MatchOption, true};
ghost use Rattle.record_rule.specs.Facts.{HasMark};
ghost use Rattle.row_words.specs.Packing.{IsLink};
ghost use Rattle.record_table.specs.Handles.{setup_of, view};
ghost use Rattle.record_table.specs.Nodes.{origin, HoldsNode, HoldsThere};
ghost use Rattle.record_table.specs.declared.nodes.Node.TheVariants.{At};
ghost use Rattle.reclaim_api.specs.Holds.{KeepsButLink, IsElsewhere};
ghost use Rattle.record_pieces.specs.Events.{Event};
ghost use Rattle.manager.specs.Guards.{IsAtWork, DidAll};
ghost use Rattle.set_calls.specs.Going.{GoesOn};
ghost use Rattle.set_calls.specs.Knowing.{HasSeenKey};
ghost use Rattle.michael_list.specs.Walks.{unmarked, loads, TakesOut, Looks, Hops, Finds};
ghost use Rattle.list_calls.specs.Standing.{IsHome, StandsBefore, rank};
ghost use Rattle.michael_list.specs.Knowing.{IsMarkNoted, HasReachedNext, IsLanding, IsNext, IsSpot, shown_by, shown_of};

use crate::shape::MichaelShape;
use crate::spots::{Landing, Spot};
use alloc_api::Allocator;
use list_calls::place_behind;
use manager::Guard;
use pool::Pool;
use reclaim_api::{Holding, Scheme};
use record_memory::LINK;
use record_table::{Held, Node};
use row_words::Link;
use set_calls::{same_held, same_node};

/// Takes a marked record out behind its predecessor, and retires it. `link` is the record's link without its mark.
/// `false`: the predecessor's link had changed, so another caller was first, or an insertion came between.
pub fn take_out<'a, R: Scheme, A: Allocator, P: Pool>(
    guard: &mut Guard<'a, MichaelShape, R, A, P>,
    before: &Node,
    gone: &Held,
    link: Link,
) -> bool
    requires at_work { IsAtWork guard.old }
    requires before { HoldsNode guard.old.caller.now.pass before.now }
    requires gone { HoldsThere guard.old.caller.now.pass gone.now }
    requires link { (link.flags ≡ 0) × IsLink link }
    requires marked { IsMarkNoted guard.old.caller.now.pass gone.now link }
    ensures at_work { IsAtWork guard.new }
    ensures on { GoesOn guard.old guard.new }
    ensures keeps { KeepsButLink (origin before.now) guard.old.caller.now.pass guard.new.caller.now.pass }
    ensures did { (es : List Event) × TakesOut before.now gone.now link result es × DidAll guard.old es guard.new }
{
    match guard.unlink(same_node(before), LINK, same_held(gone), link) {
        Ok(taken) => {
            guard.retire(taken);
            true
        }
        Err(_) => false,
    }
}

// Loads the key and the link of a record that the hop from `before` reached.
fn read<'a, R: Scheme, A: Allocator, P: Pool>(
    guard: &mut Guard<'a, MichaelShape, R, A, P>,
    root: u32,
    before: &Node,
    at: &Held,
    key: u64,
) -> (u64, Link)
    requires at_work { IsAtWork guard.old }
    requires reached { HasReachedNext guard.old.caller.now.pass root key before.now at.now (view guard.old.caller.now.pass).own.updates_seen }
    ensures at_work { IsAtWork guard.new }
    ensures on { GoesOn guard.old guard.new }
    ensures reached { HasReachedNext guard.new.caller.now.pass root key before.now at.now (view guard.old.caller.now.pass).own.updates_seen }
    ensures low { rank guard.new.caller.now.pass before.now ≡ rank guard.old.caller.now.pass before.now }
    ensures key { rank guard.new.caller.now.pass (At at.now) ≡ result.0 + 1 }
    ensures marked { HasMark result.1 → IsMarkNoted guard.new.caller.now.pass at.now (unmarked result.1) }
    ensures clear { ¬ HasMark result.1 → (result.1.flags ≡ 0) × IsLink result.1 × (result.0 ≡ key → HasSeenKey guard.new.caller.now.pass key true (view guard.new.caller.now.pass).own.updates_seen) }
    ensures did { DidAll guard.old (loads at.now result.0 result.1 (view guard.new.caller.now.pass).own.updates_seen) guard.new }
{
    let found = guard.load_key(same_held(at));
    let link = guard.load_link(Node::At(same_held(at)), LINK);
    (found, link)
}

// Looks at a record that the hop from `before` reached, and goes where its key and its link tell.
fn look<'a, R: Scheme, A: Allocator, P: Pool>(
    guard: &mut Guard<'a, MichaelShape, R, A, P>,
    root: u32,
    before: Node,
    at: Held,
    key: u64,
) -> Landing
    requires at_work { IsAtWork guard.old }
    requires reached { HasReachedNext guard.old.caller.now.pass root key before at (view guard.old.caller.now.pass).own.updates_seen }
    ensures at_work { IsAtWork guard.new }
    ensures on { GoesOn guard.old guard.new }
    ensures landing { IsLanding guard.new.caller.now.pass root key before (rank guard.old.caller.now.pass before) result }
    ensures did { (es : List Event) × Looks key before at (view guard.old.caller.now.pass).own.updates_seen result (shown_by (view guard.new.caller.now.pass) result) es × DidAll guard.old es guard.new }
{
    let (found, link) = read(guard, root, &before, &at, key);
    if link.is_marked() {
        if take_out(guard, &before, &at, link.clean()) {
            return Landing::Stays;
        }
        return Landing::Restarts;
    }
    if found < key {
        return Landing::On { at, key: found };
    }
    if found == key {
        return Landing::Found(Spot::Present { before, at, link });
    }
    let next = Some(at);
    Landing::Found(Spot::Absent { before, next })
}

// One hop.
fn hop<'a, R: Scheme, A: Allocator, P: Pool>(
    guard: &mut Guard<'a, MichaelShape, R, A, P>,
    root: u32,
    before: &Node,
    key: u64,
) -> Landing
    requires at_work { IsAtWork guard.old }
    requires home { IsHome (setup_of guard.old.manager.now.table) root key }
    requires before { StandsBefore guard.old.caller.now.pass root key before.now }
    ensures at_work { IsAtWork guard.new }
    ensures on { GoesOn guard.old guard.new }
    ensures landing { IsLanding guard.new.caller.now.pass root key before.now (rank guard.old.caller.now.pass before.now) result }
    ensures did { (es : List Event) × Hops key before.now result (shown_by (view guard.new.caller.now.pass) result) es × DidAll guard.old es guard.new }
{
    let place = place_behind(before);
    match guard.hold(place, same_node(before), LINK) {
        Holding::Null => {
            let before = same_node(before);
            let next = None;
            Landing::Found(Spot::Absent { before, next })
        }
        Holding::Held(at) => {
            let from = same_node(before);
            look(guard, root, from, at, key)
        }
        Holding::Marked(_) => Landing::Restarts,
        Holding::Moved { found: _ } => Landing::Restarts,
    }
}

// The node from which the next hop goes, where there is one.
fn go_on(root: u32, before: Node, landing: Landing) -> Result<Node, Spot>
    ensures { IsNext root before landing result }
{
    match landing {
        Landing::On { at, key: _ } => Ok(Node::At(at)),
        Landing::Stays => Ok(before),
        Landing::Restarts => Ok(Node::Root(root)),
        Landing::Found(spot) => Err(spot),
    }
}

/// Walks from the root to the place of the key, until `hops` has come to `budget`. `root` is `key` modulo the number of
/// roots, and each hop adds 1 to `hops`, which is at most `budget`. `None`: one more is needed.
pub fn find<'a, R: Scheme, A: Allocator, P: Pool>(
    guard: &mut Guard<'a, MichaelShape, R, A, P>,
    root: u32,
    key: u64,
    budget: u32,
    hops: &mut u32,
) -> Option<Spot>
    requires at_work { IsAtWork guard.old }
    requires home { IsHome (setup_of guard.old.manager.now.table) root key }
    requires hops { hops.old ≤ budget }
    ensures at_work { IsAtWork guard.new }
    ensures on { GoesOn guard.old guard.new }
    ensures hops { hops.new ≤ budget }
    ensures spot { MatchOption result (hops.new ≡ budget) (λ spot. (hops.old < hops.new) × IsSpot guard.new.caller.now.pass root key spot) }
    ensures did { (made : ℕ) × (es : List Event) × (hops.new ≡ hops.old + made) × Finds key root made result (shown_of (view guard.new.caller.now.pass) result) es × DidAll guard.old es guard.new }
{
    let mut before = Node::Root(root);
    while *hops < budget {
        *hops += 1;
        let landing = hop(guard, root, &before, key);
        match go_on(root, before, landing) {
            Ok(node) => before = node,
            Err(spot) => return Some(spot),
        }
    }
    None
}
