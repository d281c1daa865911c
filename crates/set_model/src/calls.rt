// What callers ask of a set, and what they are told.
ghost use Rattle.std.specs.Prelude.{◌≡◌};
ghost use Rattle.set_model.specs.Machine.{reply_of_answer};

use std::alloc::{AllocError, AllocFailed};
use thiserror::Error;

/// One call on a set of keys.
#[derive(Clone, Copy, Debug, PartialEq, Eq)]
pub enum Call {
    /// Adds the key.
    Insert(u64),
    /// Takes the key away.
    Remove(u64),
    /// Asks whether the key is there.
    Search(u64),
}

/// The reply to a call.
#[derive(Clone, Copy, Debug, PartialEq, Eq)]
pub enum Reply {
    /// An insertion added the key, a removal took it away, a search found it.
    Yes,
    /// It did not.
    No,
    /// An insertion found no record left. Nothing changed.
    Full,
}

/// The reply of a call that was answered, as `PlainSet::apply` answers it.
impl From<bool> for Reply {
    ghost from_gives = { λ answer reply. reply ≡ reply_of_answer answer };

    fn from(answer: bool) -> Reply {
        if answer { Reply::Yes } else { Reply::No }
    }
}

/// What an insertion into a concurrent set answers.
#[derive(Clone, Copy, Debug, PartialEq, Eq)]
pub enum InsertAnswer {
    /// The key was added, or it was there already.
    Done(bool),
    /// The key was absent, and no record was left for it: the one draw of this call found this. Nothing
    /// changed.
    Full {
        /// The value of the word that shows it.
        found: u64,
    },
    /// The call needs a further hop and has made as many as its budget allows. Nothing changed, and the
    /// call may be made again.
    Again {
        /// How many hops it made: its budget.
        hops: u32,
    },
}

/// What a removal from a concurrent set or a search in it answers.
#[derive(Clone, Copy, Debug, PartialEq, Eq)]
pub enum LookAnswer {
    /// A removal took the key away, a search found it; or it did not.
    Done(bool),
    /// The call needs a further hop and has made as many as its budget allows. Nothing changed, and the
    /// call may be made again.
    Again {
        /// How many hops it made: its budget.
        hops: u32,
    },
}

/// A call that took effect, as contracts list it.
#[derive(Clone, Copy, Debug, PartialEq, Eq)]
pub struct Update {
    /// Whose call it was, from 0.
    pub caller: u32,
    /// Its number among the caller's calls that were answered `Yes` or `No`, from 1.
    pub number: u64,
    /// The key.
    pub key: u64,
    /// Whether the key was added, and not taken away.
    pub added: bool,
}

/// How many records a run drew, reused, retired and freed, and how many lie where in the end. The
/// roots of a set aren't counted.
#[derive(Clone, Copy, Debug, PartialEq, Eq)]
pub struct Counts {
    /// Records that were handed out for the first time.
    pub drawn: u64,
    /// Times that a freed record was handed out again.
    pub reused: u64,
    /// Times that a record was retired.
    pub retired: u64,
    /// Times that a record left a limbo bag.
    pub freed: u64,
    /// Records in limbo bags.
    pub limbo: u64,
    /// Records in free chains and on shelves.
    pub free: u64,
    /// Records that were handed out and not used, and wait for their caller's next call.
    pub spare: u64,
    /// Records that were freed at the last generation.
    pub spent: u64,
}

/// Memory ran out. No clause says that it doesn't.
#[derive(Clone, Copy, Debug, PartialEq, Eq, Error)]
#[error("out of memory")]
pub struct OutOfMemory;

impl From<AllocError> for OutOfMemory {
    fn from(_error: AllocError) -> OutOfMemory {
        OutOfMemory
    }
}

impl<T: Drop> From<AllocFailed<T>> for OutOfMemory {
    fn from(_error: AllocFailed<T>) -> OutOfMemory {
        OutOfMemory
    }
}
