//! Pools: where callers leave chains of free records for others.
//!
//! A caller that has many free records puts a chain of them on a shelf, and a caller that has none takes
//! one from there. The split into reclaimer, pool and allocator is that of Brown's record manager; the
//! shelves are this project's own.
#![tactic(auto)]

mod no_pool;
mod shelf_pool;

ghost use Rattle.std.specs.Prelude.{◌≡◌, ℕ, List};
ghost use Rattle.record_memory.specs.declared.steps.Step.{Step};
ghost use Rattle.record_table.specs.Handles.{view, IsPassOf, IsSamePass};
ghost use Rattle.pool.specs.Calls.{IsFull, Takes, Gives};

pub use no_pool::NoPool;
use record_table::{Cover, Pass, Shape, Table};
use row_words::Chain;
pub use shelf_pool::ShelfPool;

/// What `Pool::take` answers.
#[derive(Debug, PartialEq, Eq, Drop)]
pub enum Taken {
    /// A chain of 32 free records, which are the caller's now.
    Some(Chain),
    /// Every shelf was looked at and found empty.
    None,
}

/// What `Pool::give` answers.
#[derive(Debug, PartialEq, Eq, Drop)]
pub enum Given {
    /// The chain lies on a shelf, and its records are the caller's no more.
    Done,
    /// Every shelf was looked at and found taken. The chain comes back.
    Kept(Chain),
}

/// Where free records wait for any caller. A chain on a shelf has 32 records. A call looks at the
/// shelves in order, in each at most two steps, and waits for nobody.
pub trait Pool {
    /// How many shelves there are, from shelf 0 on.
    const SHELVES: u32;

    ghost SHELVES: { ℕ };

    // What the steps of a call show that found the pool in use by another caller, where a pool knows
    // such a case. The call then answers as if every shelf had been found empty, or taken.
    ghost busy: { List Step → Type 0 };

    /// Takes a chain from the first shelf that has one. It answers `None` only where it looked at every
    /// shelf and found it empty.
    fn take<S: Shape, R: Cover>(table: &Table<S, R>, pass: &mut Pass<S, R>) -> Taken
        requires pass { IsPassOf table.now pass.old }
        ensures pass { IsSamePass pass.old pass.new }
        ensures takes { Takes SHELVES busy (view pass.old) (view pass.new) result };

    /// Puts a chain of 32 free records of this caller on the first shelf that is empty. It answers `Kept`
    /// only where it looked at every shelf and found it taken, and hands the chain back.
    fn give<S: Shape, R: Cover>(table: &Table<S, R>, pass: &mut Pass<S, R>, chain: Chain) -> Given
        requires pass { IsPassOf table.now pass.old }
        requires full { IsFull (view pass.old) chain }
        ensures pass { IsSamePass pass.old pass.new }
        ensures gives { Gives SHELVES busy (view pass.old) (view pass.new) chain result };
}
