// Runs under 2GEIBR.
ghost use Rattle.std.specs.Prelude.{◌<◌, ◌≤◌, IfOk};
ghost use Rattle.listed.specs.Vectors.{items_of};
ghost use Rattle.hash_runs.specs.IbrRuns.{IsIbrRun};

use crate::hash::play_hash;
use outside::Gate;
use reclaim_ibr::Ibr;
use set_model::OutOfMemory;
use set_runs::Played;
use std::alloc::Global;
use std::sync::Wait;
use std::thread::Threads;
use workload_text::Workload;

/// Plays the workload as `play_hash` does, and 2GEIBR reclaims the records.
pub fn play_hash_ibr<T: Threads + Wait + Sync, G: Gate + Sync>(
    alloc: Global,
    rt: &T,
    gate: &G,
    workload: &Workload,
    records: u32,
    buckets: u32,
) -> Result<Played, OutOfMemory>
    requires most { records ≤ 1048575 }
    requires buckets { 0 < buckets }
    requires room { buckets ≤ records }
    ensures { IfOk result (λ played. IsIbrRun records buckets workload.now.lists (items_of played.replies.items) played.counts played.closed) }
{
    play_hash::<Ibr, _, T, G>(alloc, rt, gate, workload, records, buckets)
}
