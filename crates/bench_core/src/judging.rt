// What the words and the source come to.
ghost use Rattle.std.specs.Prelude.{◌≡◌, true, IfOk, IfErr};
ghost use Rattle.command_words.specs.Commands.{IsKnownPair, is_built};
ghost use Rattle.command_words.specs.Words.{texts_of};
ghost use Rattle.command_words.specs.declared.command.Command.TheVariants as command;
ghost use Rattle.workload_text.specs.Limits.{Plan};
ghost use Rattle.workload_text.specs.Text.{text_of};
ghost use Rattle.bench_core.specs.Ending.{Counts, Finds, FindsIn, FindsMade, FindsRead, GaveWorkload, IsMade, IsRun};
ghost use Rattle.bench_core.specs.Settings.{ArePlayable, played_as};
ghost use Rattle.bench_core.specs.Sizes.{AreSizes, IsPlanOf, reason_of, sizes_of};

use crate::ending::{Run, Verdict};
use crate::playing::play_plain;
use crate::reading::{ReadError, read_all};
use crate::tables::play_hash;
use command_words::{Command, PlayWords, TrialWords, Workloads, read_command};
use lawful_pairs::lawful;
use listed::Listed;
use outside::{Gate, Source};
use reclaim_debra::Debra;
use reclaim_hazard::Hazard;
use reclaim_ibr::Ibr;
use reclaim_none::NoReclaim;
use report_text::{Checked, WorkloadRefusal};
use set_model::{AllocatorName, OutOfMemory, ReclaimerName, SetName};
use std::alloc::Global;
use std::sync::Wait;
use std::thread::Threads;
use workload_gen::{GenPlan, generate};
use workload_text::{Workload, WorkloadError, read_workload, write_workload};

/// What is told of bytes that are no workload. None where memory ran out.
fn reason_of(error: WorkloadError) -> Option<WorkloadRefusal>
    ensures { result ≡ reason_of error }
{
    match error {
        WorkloadError::Header { line: _ } => Some(WorkloadRefusal::Header),
        WorkloadError::Callers { line: _ } => Some(WorkloadRefusal::Callers),
        WorkloadError::BadLine { line } => Some(WorkloadRefusal::BadLine { line }),
        WorkloadError::KeyRange { line } => Some(WorkloadRefusal::KeyRange { line }),
        WorkloadError::NoEnd => Some(WorkloadRefusal::NoEnd),
        WorkloadError::TooManyCalls { line } => Some(WorkloadRefusal::TooManyCalls { line }),
        WorkloadError::OutOfMemory => None,
    }
}

/// Reads the workload that the source gives, all of its bytes.
fn workload_from<S: Source>(alloc: Global, source: &mut S) -> Result<Workload, Verdict>
    ensures ok { IfOk result (GaveWorkload S.left source.old source.new) }
    ensures err { IfErr result (FindsRead S.left source.old source.new) }
    ensures kept { IfOk result (λ _. S.faults source.new ≡ S.faults source.old) }
    ensures counts { IfErr result (Counts S.faults source.old source.new) }
{
    let bytes = match read_all(alloc, source) {
        Ok(bytes) => bytes,
        Err(ReadError::Fault) => return Err(Verdict::ReadFault),
        Err(ReadError::TooLong) => return Err(Verdict::TooLong),
        Err(ReadError::OutOfMemory) => return Err(Verdict::OutOfMemory),
    };
    match read_workload(alloc, &bytes) {
        Ok(workload) => Ok(workload),
        Err(error) => match reason_of(error) {
            Some(reason) => Err(Verdict::WorkloadRefused(reason)),
            None => Err(Verdict::OutOfMemory),
        },
    }
}

/// The sizes of a workload.
fn sizes_of(workload: &Workload) -> Checked
    ensures { result ≡ sizes_of workload.now }
{
    Checked {
        callers: workload.callers(),
        calls: workload.total(),
        phases: if workload.version() == 1 {
            None
        } else {
            Some(workload.phases())
        },
    }
}

/// The plan of the workload that the words choose.
fn plan_of(chosen: Workloads) -> GenPlan
    requires { AreSizes chosen }
    ensures { IsPlanOf chosen result }
{
    GenPlan {
        callers: chosen.callers,
        calls: chosen.calls,
        keys: chosen.keys,
        seed: chosen.seed,
        shared: chosen.shared,
    }
}

/// Plays a workload on the set of a pair that is built.
fn play<R: Threads + Wait + Sync, G: Gate + Sync>(
    alloc: Global,
    rt: &R,
    gate: &G,
    chosen: PlayWords,
    workload: Workload,
) -> Result<Run, OutOfMemory>
    requires built { is_built chosen.set chosen.reclaimer ≡ true }
    requires playable { ArePlayable chosen }
    ensures { IfOk result (IsRun chosen workload) }
{
    match (chosen.set, chosen.reclaimer) {
        (SetName::Plain, ReclaimerName::Nothing) => {
            let report = play_plain(alloc, gate, workload)?;
            Ok(Run {
                report,
                closed: None,
            })
        }
        (SetName::Michael, ReclaimerName::Nothing) => {
            play_hash::<NoReclaim, (), R, G>(alloc, rt, gate, chosen, workload)
        }
        (SetName::Michael, ReclaimerName::Debra) => {
            play_hash::<Debra, _, R, G>(alloc, rt, gate, chosen, workload)
        }
        (SetName::Michael, ReclaimerName::Hazard) => {
            play_hash::<Hazard, _, R, G>(alloc, rt, gate, chosen, workload)
        }
        (SetName::Michael, ReclaimerName::Ibr) => {
            play_hash::<Ibr, _, R, G>(alloc, rt, gate, chosen, workload)
        }
        _ => unreachable!(),
    }
}

/// Reads a workload, and tells its sizes.
pub fn find_checked<S: Source>(alloc: Global, source: &mut S) -> Verdict
    ensures finds { FindsIn S.left source.old source.new command.Check result }
    ensures counts { Counts S.faults source.old source.new result }
{
    match workload_from(alloc, source) {
        Ok(workload) => Verdict::Checked(sizes_of(&workload)),
        Err(verdict) => verdict,
    }
}

/// Reads a workload, and plays it.
pub fn find_played<R: Threads + Wait + Sync, S: Source, G: Gate + Sync>(
    alloc: Global,
    rt: &R,
    gate: &G,
    chosen: PlayWords,
    source: &mut S,
) -> Verdict
    requires { ArePlayable chosen }
    ensures finds { FindsIn S.left source.old source.new (command.Play chosen) result }
    ensures counts { Counts S.faults source.old source.new result }
{
    if let Err(pair) = lawful(chosen.set, chosen.reclaimer) {
        return Verdict::Unlawful(pair);
    }
    let workload = match workload_from(alloc, source) {
        Ok(workload) => workload,
        Err(verdict) => return verdict,
    };
    match play(alloc, rt, gate, chosen, workload) {
        Ok(run) => Verdict::Played(run),
        Err(OutOfMemory) => Verdict::OutOfMemory,
    }
}

/// Makes a workload.
fn made(alloc: Global, chosen: Workloads) -> Result<Workload, OutOfMemory>
    requires { AreSizes chosen }
    ensures { IfOk result (IsMade chosen) }
{
    generate(alloc, &plan_of(chosen))
}

/// Makes a workload's text.
fn made_text(alloc: Global, chosen: Workloads) -> Result<Listed<u8>, OutOfMemory>
    requires { AreSizes chosen }
    ensures { IfOk result (λ text. (plan : Plan) × IsMade chosen plan × (text ≡ text_of plan)) }
{
    let workload = made(alloc, chosen)?;
    Ok(Listed::of(write_workload(alloc, &workload)?))
}

/// Makes a workload, and tells its text.
pub fn find_generated(alloc: Global, chosen: Workloads) -> Verdict
    requires { AreSizes chosen }
    ensures { FindsMade (command.Generate chosen) result }
{
    match made_text(alloc, chosen) {
        Ok(text) => Verdict::Generated(text),
        Err(OutOfMemory) => Verdict::OutOfMemory,
    }
}

/// What a trial plays on.
fn played_as(chosen: TrialWords) -> PlayWords
    ensures { result ≡ played_as chosen }
{
    PlayWords {
        set: chosen.set,
        reclaimer: chosen.reclaimer,
        allocator: AllocatorName::Bump,
        buckets: 64,
        records: None,
    }
}

/// Makes a workload and plays it.
fn run_of_made<R: Threads + Wait + Sync, G: Gate + Sync>(
    alloc: Global,
    rt: &R,
    gate: &G,
    chosen: TrialWords,
) -> Result<Run, OutOfMemory>
    requires built { is_built chosen.set chosen.reclaimer ≡ true }
    requires sizes { AreSizes chosen.workload }
    ensures { IfOk result (λ run. (plan : Plan) × IsMade chosen.workload plan × IsRun (played_as chosen) plan run) }
{
    let workload = made(alloc, chosen.workload)?;
    play(alloc, rt, gate, played_as(chosen), workload)
}

/// Makes a workload, and plays it.
pub fn find_tried<R: Threads + Wait + Sync, G: Gate + Sync>(
    alloc: Global,
    rt: &R,
    gate: &G,
    chosen: TrialWords,
) -> Verdict
    requires known { IsKnownPair chosen.set chosen.reclaimer }
    requires sizes { AreSizes chosen.workload }
    ensures { FindsMade (command.Trial chosen) result }
{
    if let Err(pair) = lawful(chosen.set, chosen.reclaimer) {
        return Verdict::Unlawful(pair);
    }
    match run_of_made(alloc, rt, gate, chosen) {
        Ok(run) => Verdict::Tried(run),
        Err(OutOfMemory) => Verdict::OutOfMemory,
    }
}

/// Tests the words, and does what they say, up to printing.
pub fn judge<R: Threads + Wait + Sync, S: Source, G: Gate + Sync>(
    alloc: Global,
    rt: &R,
    gate: &G,
    words: &[String],
    source: &mut S,
) -> Verdict
    ensures finds { Finds S.left (texts_of words.now) source.old source.new result }
    ensures counts { Counts S.faults source.old source.new result }
{
    match read_command(words) {
        None => Verdict::WordsRefused,
        Some(Command::Play(chosen)) => find_played(alloc, rt, gate, chosen, source),
        Some(Command::Check) => find_checked(alloc, source),
        Some(Command::Generate(chosen)) => find_generated(alloc, chosen),
        Some(Command::Trial(chosen)) => find_tried(alloc, rt, gate, chosen),
    }
}
