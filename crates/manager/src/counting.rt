// How many moves of records a caller made, and where its records are.
ghost use Rattle.std.specs.Prelude.{◌≡◌, ℕ, ◌+◌};
ghost use Rattle.record_table.specs.Handles.{view};
ghost use Rattle.manager.specs.Callers.{IsResting};
ghost use Rattle.manager.specs.Counted.{shown, AreCountsOf};

use crate::types::{Caller, Manager};
use alloc_api::Allocator;
use pool::Pool;
use reclaim_api::Scheme;
use record_table::Shape;
use set_model::Counts;

// A count that was raised by so many.
pub(crate) fn raised(count: u64, more: u32) -> u64
    ensures { (n : ℕ) → count ≡ shown n → result ≡ shown (n + more) }
{
    let room = u64::MAX - count;
    if (more as u64) < room {
        count + more as u64
    } else {
        u64::MAX
    }
}

impl<S: Shape, R: Scheme, A: Allocator, P: Pool> Manager<S, R, A, P> {
    /// How many records this caller drew, reused, retired and freed, over all its operations, and how many
    /// of its records are in limbo, free, spare and spent now. A spent record counts for the caller that
    /// freed it. Each count that rises stands still at 2^64 - 1. The call makes no step.
    pub fn counts(&self, caller: &Caller<S, R>) -> Counts
        requires caller { IsResting R.is_local caller.now }
        ensures counts { AreCountsOf result (view caller.now.pass).own }
    {
        Counts {
            drawn: caller.moved.drawn,
            reused: caller.moved.reused,
            retired: caller.moved.retired,
            freed: caller.moved.freed,
            limbo: caller.moved.retired - caller.moved.freed,
            free: caller.free.count as u64,
            spare: caller.spare.count as u64,
            spent: caller.moved.spent,
        }
    }
}
