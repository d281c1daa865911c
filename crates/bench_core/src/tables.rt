// Playing a workload on a table of records.
ghost use Rattle.std.specs.Prelude.{◌≡◌, IfOk};
ghost use Rattle.set_model.specs.declared.names.SetName.TheVariants.{Michael};
ghost use Rattle.hash_runs.specs.HashRuns.{manner_of};
ghost use Rattle.paired_replies.specs.Pairs.{calls_of};
ghost use Rattle.workload_text.specs.Limits.{joined};
ghost use Rattle.bench_core.specs.Ending.{IsHashPlay};
ghost use Rattle.bench_core.specs.Settings.{ArePlayable, AreSettings};
ghost use Rattle.bench_core.specs.Tables.{all_insertions, needed, records_for, roots_in};

use crate::ending::Run;
use crate::playing::insertions_of;
use crate::settings::Settings;
use closed_lists::show_lists;
use command_words::PlayWords;
use hash_runs::show_sparing;
use michael_list::MichaelShape;
use outside::Gate;
use reclaim_api::Scheme;
use set_model::{OutOfMemory, SetName};
use std::alloc::Global;
use std::sync::Wait;
use std::thread::Threads;
use table_reports::{TableRun, report_table};
use workload_text::Workload;

/// The most records of a table.
const MOST_RECORDS: u64 = 1_048_575;

/// How many records are roots on this set.
fn roots_in(set: SetName, buckets: u32) -> u32
    ensures { result ≡ roots_in set buckets }
{
    match set {
        SetName::Plain => 0,
        SetName::Michael => buckets,
        SetName::Lazy => 1,
    }
}

/// How many records the workload may use on this set with so many roots.
fn needed(set: SetName, roots: u32, workload: &Workload) -> u64
    ensures { result ≡ needed set roots (all_insertions workload.now.lists) }
{
    match set {
        SetName::Plain => 0,
        SetName::Michael | SetName::Lazy => u64::from(roots) + insertions_of(workload) as u64,
    }
}

/// How many records the workload may use with these settings: none on a plain set, and else the roots and one for each
/// insertion, 1,004,096 at most.
pub fn need(workload: &Workload, settings: &Settings) -> u64
    requires { AreSettings settings.now }
    ensures { result ≡ needed settings.now.pair.set (roots_in settings.now.pair.set settings.now.buckets) (all_insertions workload.now.lists) }
{
    let set = settings.pair.set;
    needed(set, roots_in(set, settings.buckets), workload)
}

/// How many records the table has on which the workload is played.
fn records_for(chosen: PlayWords, workload: &Workload) -> u32
    requires { ArePlayable chosen }
    ensures { result ≡ records_for chosen (all_insertions workload.now.lists) }
{
    match chosen.records {
        Some(records) => records,
        None => {
            let roots = roots_in(chosen.set, chosen.buckets);
            needed(chosen.set, roots, workload).min(MOST_RECORDS) as u32
        }
    }
}

/// Plays a workload on a hash table that starts empty, and whose records are reclaimed by `R`. All memory is taken
/// before the first call is made.
pub fn play_hash<
    R: Scheme<Local = L> + Send,
    L: Drop + Send,
    T: Threads + Wait + Sync,
    G: Gate + Sync,
>(
    alloc: Global,
    rt: &T,
    gate: &G,
    chosen: PlayWords,
    workload: Workload,
) -> Result<Run, OutOfMemory>
    requires set { chosen.set ≡ Michael }
    requires playable { ArePlayable chosen }
    ensures set { IfOk result (λ run. run.report.set ≡ Michael) }
    ensures reclaimer { IfOk result (λ run. run.report.reclaimer ≡ R.NAME) }
    ensures calls { IfOk result (λ run. calls_of run.report.callers ≡ joined workload.lists) }
    ensures played { IfOk result (IsHashPlay R.facts (manner_of R.enters R.leaves R.bears R.reaches R.puts_away) chosen workload) }
{
    let records = records_for(chosen, &workload);
    let callers = Vec::with_capacity(alloc, workload.callers() as usize)?;
    let played = hash_runs::play_hash::<R, L, T, G>(
        alloc,
        rt,
        gate,
        &workload,
        records,
        chosen.buckets,
    )?;
    show_lists::<MichaelShape, R>(&played.closed);
    show_sparing::<R>();
    let TableRun { report, closed } = report_table(
        SetName::Michael,
        R::NAME,
        workload,
        played,
        callers,
    );
    Ok(Run {
        report,
        closed: Some(closed),
    })
}
