// Where a walk ends.
use record_table::{Held, Node};

/// Where a walk for a key ends: at the node behind which the key's place is.
#[derive(Debug, PartialEq, Eq, Drop)]
pub enum Spot {
    /// The record that `before` led to has the key.
    Present {
        /// The predecessor.
        before: Node,
        /// The flags of its link, as the walk found them.
        flags: u8,
        /// The record.
        at: Held,
    },
    /// `before` led to no record with the key.
    Absent {
        /// The predecessor.
        before: Node,
        /// The flags of its link, as the walk found them.
        flags: u8,
        /// The record that it led to, whose key is greater.
        next: Option<Held>,
    },
}

/// What a hop to the next record of a list comes to.
#[derive(Debug, PartialEq, Eq, Drop)]
pub enum Landing {
    /// The record has a smaller key, and the walk goes on from it.
    On {
        /// The record.
        at: Held,
        /// Its key.
        key: u64,
    },
    /// The walk ended.
    Found(Spot),
}
