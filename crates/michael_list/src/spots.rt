// Where a hop leaves a walk, and where a walk ends.
use record_table::{Held, Node};
use row_words::Link;

/// Where a walk for a key ends: at the node behind which the key's place is.
#[derive(Debug, PartialEq, Eq, Drop)]
pub enum Spot {
    /// The record that `before` leads to has the key.
    Present {
        /// The predecessor.
        before: Node,
        /// The record.
        at: Held,
        /// Its link, which has no mark.
        link: Link,
    },
    /// No record has the key.
    Absent {
        /// The predecessor.
        before: Node,
        /// The record that it leads to, whose key is greater.
        next: Option<Held>,
    },
}

/// Where a hop leaves a walk.
#[derive(Debug, PartialEq, Eq, Drop)]
pub enum Landing {
    /// At the record that it reached, whose key is less than the one that is looked for.
    On {
        /// The record.
        at: Held,
        /// Its key.
        key: u64,
    },
    /// At the same node, since the record that it reached had a mark and was taken out.
    Stays,
    /// At the root, since a word had changed.
    Restarts,
    /// At its end.
    Found(Spot),
}
