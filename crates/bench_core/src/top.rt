// The program, from its words and its source to its sink and its status.
ghost use Rattle.std.specs.Prelude.{◌≡◌, ◌≢◌, ◌↔◌, ◌⊎◌, ℕ, true, List, [], Some, None, IsSome, false};
ghost use Rattle.command_words.specs.Commands.{IsCommand};
ghost use Rattle.command_words.specs.Words.{texts_of};
ghost use Rattle.command_words.specs.declared.command.Command.TheVariants as command;
ghost use Rattle.command_words.specs.declared.command.TrialWords.{TrialWords};
ghost use Rattle.command_words.specs.declared.command.Workloads.{Workloads};
ghost use Rattle.lawful_pairs.specs.declared.Unlawful.{Unlawful};
ghost use Rattle.outside.specs.Faults.{Rose, one_more};
ghost use Rattle.paired_replies.specs.Pairs.{calls_of};
ghost use Rattle.record_table.specs.declared.closing.Closed.{Closed};
ghost use Rattle.report_text.specs.LineTexts.{checked_text, refusal_text};
ghost use Rattle.report_text.specs.Writing.{Wrote, WrotePart};
ghost use Rattle.report_text.specs.declared.refusal.Refusal.TheVariants as refusal;
ghost use Rattle.report_text.specs.declared.refusal.WorkloadRefusal.{WorkloadRefusal};
ghost use Rattle.run_facts.specs.Unreclaimed.{IsUnreclaimed};
ghost use Rattle.set_model.specs.declared.calls.Call.{Call};
ghost use Rattle.set_model.specs.declared.names.ReclaimerName.TheVariants.{Nothing};
ghost use Rattle.set_model.specs.declared.names.SetName.TheVariants.{Plain};
ghost use Rattle.table_reports.specs.Reports.{TellsCounts, TellsKeys, RepliesAddUp};
ghost use Rattle.workload_text.specs.Limits.{Plan, joined};
ghost use Rattle.workload_text.specs.Text.{text_of};
ghost use Rattle.bench_core.specs.Clauses.{AreAllowed, AreNotRead, AreRead, AreUnlawful, ArePlayed, GaveRefused, GaveSomeWorkload, HoldsWorkload, IsDone, IsQuiet, IsRunOf, IsStopped, LeaveEnough, NamesPair, WasGiven};
ghost use Rattle.bench_core.specs.Tables.{HasOneHistory};
ghost use Rattle.bench_core.specs.Ending.{AreNoCommand, Ends, Finds, GaveNoWorkload, GaveWorkload, IsMade, has_full, output_of, run_of};
ghost use Rattle.bench_core.specs.Plays.{AreAlone};
ghost use Rattle.bench_core.specs.Reading.{GaveTooMany};
ghost use Rattle.bench_core.specs.Sizes.{sizes_of};
ghost use Rattle.bench_core.specs.declared.ending.Run.{Run};
ghost use Rattle.bench_core.specs.declared.ending.Verdict.{Verdict};

use crate::ending::{Ended, conclude};
use crate::judging::judge;
use outside::{Gate, Sink, Source};
use std::alloc::Global;
use std::sync::Wait;
use std::thread::Threads;

/// Does what the words say: reads, makes and plays a workload, and prints what is due to the sink.
/// `words` are those of the command without the program's name. The clauses on what was read speak
/// of a source that tells its bytes, and those on what was written of a sink that does.
pub fn setbench<T: Threads + Wait + Sync, S: Source, K: Sink, G: Gate + Sync>(
    rt: &T,
    alloc: Global,
    words: &[String],
    source: &mut S,
    sink: &mut K,
    gate: &G,
) -> Ended
    // The whole: the words and the source come to a verdict, and this is told to the sink.
    ensures ends { Ends S.left S.faults K.got K.faults (texts_of words.now) source.old source.new sink.old sink.new result }

    // Where the words or the pair are refused, and where a workload is made, nothing is read.
    ensures words_refused { (result.status ≡ 2) ↔ (AreNoCommand (texts_of words.now) × (result.status ≢ 7)) }
    ensures words_unread { AreNoCommand (texts_of words.now) → source.new ≡ source.old }
    ensures unlawful { (result.status ≡ 4) ↔ (AreUnlawful (texts_of words.now) × (result.status ≢ 7)) }
    ensures unread { AreNotRead (texts_of words.now) → source.new ≡ source.old }

    // What stopped the run: the first fault, which is the only one. Want of memory is free where the words
    // and the pair are accepted.
    ensures read_fault { result.status ≡ 6
        → AreRead (texts_of words.now) × (S.faults source.new ≡ one_more (S.faults source.old)) }
    ensures no_read_fault { result.status ≢ 6 → S.faults source.new ≡ S.faults source.old }
    ensures write_fault { result.status ≡ 7 → K.faults sink.new ≡ one_more (K.faults sink.old) }
    ensures no_write_fault { result.status ≢ 7 → K.faults sink.new ≡ K.faults sink.old }
    ensures out_of_memory { result.status ≡ 8 → AreAllowed (texts_of words.now) }
    ensures quiet { IsQuiet result.status → sink.new ≡ sink.old }

    // What the source gave.
    ensures too_long { IsSome (S.left source.old) → ((result.status ≡ 9)
        ↔ (GaveTooMany S.left source.old source.new × (result.status ≢ 7))) }
    ensures workload_refused { IsSome (S.left source.old) → ((result.status ≡ 3)
        ↔ (AreRead (texts_of words.now) × GaveRefused S.left source.old source.new × (IsStopped result.status → ⊥))) }
    ensures done { IsSome (S.left source.old) → (IsDone result.status
        ↔ (AreAllowed (texts_of words.now) × (AreRead (texts_of words.now) → GaveSomeWorkload S.left source.old source.new)
        × (IsStopped result.status → ⊥))) }

    // Where the words are accepted and a workload is there to be read, all is done, unless a source or a
    // sink that counts its faults met one, or memory ran out.
    ensures complete { AreAllowed (texts_of words.now)
        → (AreRead (texts_of words.now) → HoldsWorkload S.left source.old)
        → ¬ (Rose (S.faults source.old) (S.faults source.new)) → ¬ (Rose (K.faults sink.old) (K.faults sink.new))
        → IsDone result.status ⊎ (result.status ≡ 8) }

    // A run is there where `play` or `trial` was done, or was stopped while its report or summary was printed.
    ensures run_done { ArePlayed (texts_of words.now) → IsDone result.status → IsSome result.run }
    ensures run { (run : Run) → result.run ≡ Some run → (IsDone result.status ⊎ (result.status ≡ 7))
        × (text : List ℕ) × IsRunOf S.left source.old source.new (texts_of words.now) run text
        × (result.status ≢ 7 → Wrote K.got sink.old sink.new text)
        × (result.status ≡ 7 → WrotePart K.got sink.old sink.new text) }
    // A set with records was played on a table, which the callers closed. The printed replies but `full` are those of its one
    // legal history, each answered call once, in its caller's order, phase by phase, and each step on a held record found
    // the generation that its caller had reached. The number of keys and their sum are those of its records.
    ensures closed { (run : Run) → result.run ≡ Some run → (run.report.set ≡ Plain) ↔ (run.closed ≡ None) }
    ensures one_history { (run : Run) (closed : Closed) → result.run ≡ Some run → run.closed ≡ Some closed
        → (plan : Plan) × WasGiven S.left source.old source.new (texts_of words.now) plan
        × (calls_of run.report.callers ≡ joined plan.lists) × HasOneHistory run.report.set plan.lists run.report.callers closed }
    ensures keys { (run : Run) (closed : Closed) → result.run ≡ Some run → run.closed ≡ Some closed → TellsKeys closed run.report }
    ensures adds_up { (run : Run) (closed : Closed) → result.run ≡ Some run → run.closed ≡ Some closed → RepliesAddUp run.report }
    ensures counts { (run : Run) (closed : Closed) → result.run ≡ Some run → run.closed ≡ Some closed → TellsCounts closed run.report.counts }
    ensures unreclaimed { (run : Run) → result.run ≡ Some run → run.report.reclaimer ≡ Nothing → IsUnreclaimed run.report.counts }

    // The callers of a trial share no key, so each is told what it would be told alone.
    ensures alone { (chosen : TrialWords) → IsCommand (texts_of words.now) (command.Trial chosen)
        → (run : Run) → result.run ≡ Some run → AreAlone run.report.callers }
    ensures full { (result.status ≡ 5) ↔ ((run : Run) × (result.run ≡ Some run)
        × (has_full run.report.callers ≡ true) × (result.status ≢ 7)) }

    // No call is answered full where the words leave it to the program how many records there are, or choose one for each
    // root and each insertion. A plain set needs none.
    ensures never_full { (run : Run) → result.run ≡ Some run → LeaveEnough (texts_of words.now) run → has_full run.report.callers ≡ false }
    ensures plain_never_full { (run : Run) → result.run ≡ Some run → run.report.set ≡ Plain → has_full run.report.callers ≡ false }

    // What is written where no run is told of: the line of a refusal, that of `check`, or a workload's text.
    ensures words_line { result.status ≡ 2 → Wrote K.got sink.old sink.new (refusal_text refusal.Words) }
    ensures pair_line { result.status ≡ 4 → (pair : Unlawful) × NamesPair (texts_of words.now) pair
        × Wrote K.got sink.old sink.new (refusal_text (refusal.Pair pair.set pair.reclaimer)) }
    ensures length_line { result.status ≡ 9 → Wrote K.got sink.old sink.new (refusal_text refusal.TooLong) }
    ensures workload_line { result.status ≡ 3 → (cause : WorkloadRefusal)
        × GaveNoWorkload S.left source.old source.new cause
        × Wrote K.got sink.old sink.new (refusal_text (refusal.Workload cause)) }
    ensures checked { IsCommand (texts_of words.now) command.Check → result.status ≡ 0 → (plan : Plan)
        × GaveWorkload S.left source.old source.new plan
        × Wrote K.got sink.old sink.new (checked_text (sizes_of plan)) }
    ensures generated { (chosen : Workloads) → IsCommand (texts_of words.now) (command.Generate chosen)
        → result.status ≡ 0 → (plan : Plan) × IsMade chosen plan × Wrote K.got sink.old sink.new (text_of plan) }

    // A write fault comes while what is due is printed, and something was due.
    ensures part { result.status ≡ 7 → (found : Verdict)
        × Finds S.left (texts_of words.now) source.old source.new found
        × (result.run ≡ run_of found) × (output_of found ≢ []) × WrotePart K.got sink.old sink.new (output_of found) }
{
    end_of(alloc, rt, words, source, sink, gate)
}

/// The run, with all of its facts in one.
#[tactic(auto, using(crate::proofs::Clauses::finds_text))]
fn end_of<T: Threads + Wait + Sync, S: Source, K: Sink, G: Gate + Sync>(
    alloc: Global,
    rt: &T,
    words: &[String],
    source: &mut S,
    sink: &mut K,
    gate: &G,
) -> Ended
    ensures { Ends S.left S.faults K.got K.faults (texts_of words.now) source.old source.new sink.old sink.new result }
{
    let verdict = judge(alloc, rt, gate, words, source);
    conclude(verdict, sink)
}
