// The nodes that steps are on, and what steps on them answer.
use row_words::{Link, Ref};

/// A record that a pass holds at a place of its guard.
#[derive(Clone, Copy, Debug, PartialEq, Eq)]
pub struct Held {
    /// The place, from 0.
    pub place: u32,
    /// The record.
    pub target: Ref,
}

/// What a step on a set's words is on.
#[derive(Clone, Copy, Debug, PartialEq, Eq)]
pub enum Node {
    /// The root with this number, from 0. It is always held.
    Root(u32),
    /// A record that the pass holds.
    At(Held),
}

/// The link that a refused exchange found.
#[derive(Clone, Copy, Debug, PartialEq, Eq)]
pub struct Found {
    /// The link.
    pub link: Link,
}
