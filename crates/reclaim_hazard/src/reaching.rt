// The parts of a try to hold: a value is stored in an own word, the link is loaded again, and what it is then is answered.
ghost use Rattle.std.specs.Prelude.{◌≡◌, ◌<◌, ◌^◌, ℕ};
ghost use Rattle.record_rule.specs.Links.{near_of, generation_at};
ghost use Rattle.record_table.specs.Handles.{setup_of, view, IsPassOf, IsSamePass};
ghost use Rattle.record_table.specs.Nodes.{origin, HasStarted, HoldsNode};
ghost use Rattle.reclaim_api.specs.Guarding.{IsInside};
ghost use Rattle.reclaim_api.specs.Frames.{LeavesRecords};
ghost use Rattle.reclaim_api.specs.Locals.{IsLocalOf};
ghost use Rattle.reclaim_api.specs.Holds.{IsElsewhere, KeepsElse};
ghost use Rattle.reclaim_hazard.specs.LocalParts.{IsLocal};
ghost use Rattle.reclaim_hazard.specs.Steps.{stored_own, HasLoadedAgain, AnswersBy};

use crate::{Hazard, Retired};
use reclaim_api::Holding;
use record_memory::announcement;
use record_table::{Held, Node, Pass, Shape, Table};
use row_words::{Link, MARK, Ref, pack_link, pack_ref};

// Stores a value in the own word of a place.
pub(crate) fn store_own<S: Shape>(
    table: &Table<S, Hazard>,
    pass: &mut Pass<S, Hazard>,
    local: &Retired,
    place: u32,
    value: u64,
)
    requires pass { IsPassOf table.now pass.old }
    requires local { IsLocalOf IsLocal local.now pass.old }
    requires place { place < 3 }
    ensures pass { IsSamePass pass.old pass.new }
    ensures local { IsLocalOf IsLocal local.now pass.new }
    ensures stored { (found : ℕ) × (view pass.new ≡ stored_own (view pass.old) place value found) }
{
    table.store_control(pass, announcement(local.caller, place), value);
}

// Names the target in the own word of the place, and loads the link again.
pub(crate) fn load_again<S: Shape>(
    table: &Table<S, Hazard>,
    pass: &mut Pass<S, Hazard>,
    local: &Retired,
    place: u32,
    from: Node,
    field: u8,
    target: Ref,
) -> Link
    requires pass { IsPassOf table.now pass.old }
    requires inside { IsInside pass.old }
    requires started { HasStarted pass.old }
    requires local { IsLocalOf IsLocal local.now pass.old }
    requires place { place < 3 }
    requires from { HoldsNode pass.old from }
    requires elsewhere { IsElsewhere (origin from) place }
    requires field { field ≡ 3 }
    requires link { S.facts.may_hold (near_of (view pass.old) (origin from)) 3 }
    ensures pass { IsSamePass pass.old pass.new }
    ensures inside { IsInside pass.new }
    ensures local { IsLocalOf IsLocal local.now pass.new }
    ensures rest { LeavesRecords (view pass.old) (view pass.new) }
    ensures keeps { KeepsElse place pass.old pass.new }
    ensures loaded { HasLoadedAgain S.facts (view pass.old) (origin from) place target result (view pass.new) }
{
    store_own(table, pass, local, place, pack_ref(Some(target)));
    table.reach_link(pass, place, from, field)
}

// The generation that the words of a node carry.
pub(crate) fn generation_of<S: Shape>(table: &Table<S, Hazard>, from: &Node) -> u32
    ensures generation { result ≡ generation_at (setup_of table.now) (origin from.now) }
    ensures fits { result < 2 ^ 20 }
{
    match from {
        Node::Root(_) => table.first().get(),
        Node::At(held) => held.target.generation.get(),
    }
}

// The node itself.
pub(crate) fn same_node(node: &Node) -> Node
    ensures { result ≡ node.now }
{
    match node {
        Node::Root(number) => Node::Root(*number),
        Node::At(held) => {
            let place = held.place;
            let target = held.target;
            Node::At(Held { place, target })
        }
    }
}

// The answer to a link that was loaded again from a word under the generation `own`, and led to `held` before.
pub(crate) fn answer(own: u32, again: Link, held: Held) -> Holding
    requires own { own < 2 ^ 20 }
    ensures { AnswersBy own again held result }
{
    if again.flags & MARK != 0 {
        Holding::Marked(again)
    } else if again.target == Some(held.target) {
        Holding::Held(held)
    } else {
        let found = pack_link(own, again);
        Holding::Moved { found }
    }
}
