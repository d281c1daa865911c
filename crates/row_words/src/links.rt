// Links from record to record, and the chains that links make.
ghost use Rattle.std.specs.Prelude.{◌≡◌, ◌↔◌, ◌%◌, ◌/◌, IsTrue};
ghost use Rattle.row_words.specs.Packing.{IsLink};

use crate::Ref;
use std::marker::Model;

/// The flag of a link whose record was taken out of its set, or is about to be.
pub const MARK: u8 = 1;

/// The flag of a link that one caller has locked.
pub const LOCK: u8 = 2;

/// What a link word holds beside its record's own generation.
#[derive(Clone, Copy, Debug, PartialEq, Eq)]
pub struct Link {
    /// The flags, below 16: `MARK`, `LOCK`, and 4 and 8, which are kept for a tree.
    pub flags: u8,
    /// The record that the link leads to.
    pub target: Option<Ref>,
}

impl Model for Link {
    ghost use Rattle.row_words.specs.Refs.{LinkParts, AreFlags};

    ghost Value = { LinkParts };

    ghost view = { λ l. record { flags = l.flags; target = l.target } };

    ghost invariant = { λ l. AreFlags l.flags };

    ghost inverse = { λ p. record { flags = p.flags; target = p.target } };
}

impl Link {
    /// The link to `target`, or to no record, without flags.
    pub fn to(target: Option<Ref>) -> Link
        ensures link { result ≡ record { flags = 0; target = target } }
        ensures in_range { IsLink result }
    {
        Link { flags: 0, target }
    }

    /// The link to the same record without flags.
    pub fn clean(self) -> Link
        ensures link { result ≡ record { flags = 0; target = self.target } }
        ensures in_range { IsLink result }
    {
        Link::to(self.target)
    }

    /// The link to the same record with the mark alone.
    pub fn marked(self) -> Link
        ensures link { result ≡ record { flags = 1; target = self.target } }
        ensures in_range { IsLink result }
    {
        Link {
            flags: MARK,
            target: self.target,
        }
    }

    /// The link to the same record with the lock alone.
    pub fn locked(self) -> Link
        ensures link { result ≡ record { flags = 2; target = self.target } }
        ensures in_range { IsLink result }
    {
        Link {
            flags: LOCK,
            target: self.target,
        }
    }

    /// Whether it has the mark, whatever other flags it has.
    pub fn is_marked(&self) -> bool
        ensures { IsTrue result ↔ (self.now.flags % 2 ≡ 1) }
    {
        self.flags % 2 == MARK
    }

    /// Whether it has the lock, whatever other flags it has.
    pub fn is_locked(&self) -> bool
        ensures { IsTrue result ↔ (self.now.flags / 2 % 2 ≡ 1) }
    {
        self.flags / LOCK % 2 == 1
    }
}

/// A chain of records through the chain words of their rows.
#[derive(Debug, PartialEq, Eq, Drop)]
pub struct Chain {
    /// The first record.
    pub head: Option<Ref>,
    /// How many records there are.
    pub count: u32,
}

impl Chain {
    /// The chain of no records.
    pub fn new() -> Chain
        ensures head { result.head ≡ None }
        ensures count { result.count ≡ 0 }
    {
        Chain {
            head: None,
            count: 0,
        }
    }

    /// Whether there are no records.
    pub fn is_empty(&self) -> bool
        ensures { IsTrue result ↔ (self.now.count ≡ 0) }
    {
        self.count == 0
    }
}

/// How many records left limbo.
#[derive(Clone, Copy, Debug, PartialEq, Eq)]
pub struct Freed {
    /// All that left, the spent ones among them.
    pub freed: u32,
    /// Those that were at the last generation and are handed out no more.
    pub spent: u32,
}
