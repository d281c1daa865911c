// Runs under any reclaimer.
ghost use Rattle.std.specs.Prelude.{◌<◌, ◌≤◌, IfOk};
ghost use Rattle.listed.specs.Vectors.{items_of};
ghost use Rattle.hash_runs.specs.HashRuns.{IsRunUnder, manner_of};

use alloc_bump::Bump;
use michael_hash::MichaelHash;
use outside::Gate;
use pool::ShelfPool;
use reclaim_api::Scheme;
use record_table::PrepareError;
use row_words::Generation;
use set_model::OutOfMemory;
use set_runs::{Played, play_set};
use std::alloc::Global;
use std::sync::Wait;
use std::thread::Threads;
use workload_text::Workload;

/// Plays the workload on an empty hash table of `records` records, at most 1,048,575, of which the first `buckets`, at
/// least 1, are the buckets. Records are reclaimed by `R`, are drawn from one shared count, and go from caller to caller
/// over 16 shelves. The one refusal is want of memory, before the first call is made.
pub fn play_hash<
    R: Scheme<Local = L> + Send,
    L: Drop + Send,
    T: Threads + Wait + Sync,
    G: Gate + Sync,
>(
    alloc: Global,
    rt: &T,
    gate: &G,
    workload: &Workload,
    records: u32,
    buckets: u32,
) -> Result<Played, OutOfMemory>
    requires most { records ≤ 1048575 }
    requires buckets { 0 < buckets }
    requires room { buckets ≤ records }
    ensures { IfOk result (λ played. IsRunUnder R.facts (manner_of R.enters R.leaves R.bears R.reaches R.puts_away) records buckets workload.now.lists (items_of played.replies.items) played.counts played.closed) }
{
    let Some(first) = Generation::new(1) else {
        unreachable!()
    };
    let made = MichaelHash::<R, Bump, ShelfPool>::prepare(
        alloc,
        records,
        workload.callers(),
        first,
        buckets,
    );
    let (hash, callers) = match made {
        Ok(made) => made,
        Err(PrepareError::OutOfMemory) => return Err(OutOfMemory),
        Err(PrepareError::Records | PrepareError::Callers) => unreachable!(),
    };
    play_set(alloc, rt, gate, hash, callers, workload, 2 * records + 64)
}
