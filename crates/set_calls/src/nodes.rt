// A node, and a record that is held, for one more call: each call of a guard takes its own.
ghost use Rattle.std.specs.Prelude.{◌≡◌};

use record_table::{Held, Node};

/// The same node once more.
pub fn same_node(node: &Node) -> Node
    ensures { result ≡ node.now }
{
    match node {
        Node::Root(number) => Node::Root(*number),
        Node::At(held) => Node::At(same_held(held)),
    }
}

/// The same record, held at the same place, once more.
pub fn same_held(held: &Held) -> Held
    ensures { result ≡ held.now }
{
    Held {
        place: held.place,
        target: held.target,
    }
}
