// Where a walk holds what it reaches.
ghost use Rattle.std.specs.Prelude.{◌≡◌, ◌<◌};
ghost use Rattle.record_table.specs.Nodes.{origin};
ghost use Rattle.reclaim_api.specs.Holds.{IsElsewhere};

use record_table::Node;

/// The place for what a node leads to: 0 or 1, whichever isn't the node's.
pub fn place_behind(node: &Node) -> u32
    ensures within { result < 2 }
    ensures else_ { IsElsewhere (origin node.now) result }
{
    match node {
        Node::Root(_) => 0,
        Node::At(held) => { if held.place == 0 { 1 } else { 0 } }
    }
}
