//! What all sorted lists over the links of a table share: where a linked record stands, what a load
//! of a link shows, that each step of a list keeps its facts, and what the words of a closed table say;
//! and the facts of Michael's list with their laws. All of it is for proofs.
#![tactic(auto)]

use record_rule::Shape;

/// A set of sorted lists, one a root, whose callers decide their own calls. It has no function that
/// runs.
pub trait SortedLists: Shape {
    ghost use Rattle.list_facts.specs.ClosedLists.{IsListSet};

    ghost lists: { IsListSet Self.facts };
}
