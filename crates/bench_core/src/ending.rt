// How a run of the program ends.
ghost use Rattle.std.specs.Prelude.{◌≡◌, ◌≢◌, None};
ghost use Rattle.bench_core.specs.Ending.{Concludes, HasText, Tells, any_full, has_full, status_of_run};
ghost use Rattle.report_text.specs.LineTexts.{refusal_text};
ghost use Rattle.report_text.specs.Printed.{OnDone, OnWriteFault};

use lawful_pairs::Unlawful;
use listed::Listed;
use outside::Sink;
use record_table::Closed;
use report_text::{
    Checked, Played, Printed, Refusal, Report, WorkloadRefusal, print_checked, print_refusal,
    print_report, print_summary, print_text,
};
use set_model::Reply;

/// All was done.
pub const DONE: u8 = 0;
/// The words are no command.
pub const WORDS_REFUSED: u8 = 2;
/// The bytes are no workload.
pub const WORKLOAD_REFUSED: u8 = 3;
/// The set may not be played under the reclaimer.
pub const UNLAWFUL: u8 = 4;
/// All was done, and some call was answered full.
pub const DONE_WITH_FULL: u8 = 5;
/// The source failed.
pub const READ_FAULT: u8 = 6;
/// The sink failed.
pub const WRITE_FAULT: u8 = 7;
/// Memory ran out.
pub const OUT_OF_MEMORY: u8 = 8;
/// The source gave more bytes than a workload may have.
pub const TOO_LONG: u8 = 9;

/// A run of a workload.
#[derive(Drop)]
pub struct Run {
    /// What it has to tell.
    pub report: Report,
    /// The table that was played on, closed by all callers. A plain set has none.
    pub closed: Option<Closed>,
}

/// How a run of the program ended.
#[derive(Drop)]
pub struct Ended {
    /// The status, 0 to 9.
    pub status: u8,
    /// The run, where a workload was played, be it one without calls.
    pub run: Option<Run>,
}

/// What the words and the source came to, before anything is printed.
#[derive(Drop)]
pub enum Verdict {
    /// The words are no command. Nothing was read.
    WordsRefused,
    /// The words name a pair that isn't lawful. Nothing was read.
    Unlawful(Unlawful),
    /// The source failed.
    ReadFault,
    /// The source gave more bytes than a workload may have.
    TooLong,
    /// The bytes are no workload.
    WorkloadRefused(WorkloadRefusal),
    /// Memory ran out.
    OutOfMemory,
    /// A workload was read.
    Checked(Checked),
    /// A workload was made, and this is its text.
    Generated(Listed<u8>),
    /// A workload was read and played.
    Played(Run),
    /// A workload was made and played.
    Tried(Run),
}

/// Whether one of the replies is full.
fn any_full(replies: &[Reply]) -> bool
    ensures { result ≡ any_full replies.now }
{
    for reply in replies {
        if matches!(reply, Reply::Full) {
            return true;
        }
    }
    false
}

/// Whether some call was answered full.
fn has_full(callers: &[Played]) -> bool
    ensures { result ≡ has_full callers.now }
{
    for played in callers {
        if any_full(played.replies.as_slice()) {
            return true;
        }
    }
    false
}

/// The status of a run that was printed whole.
fn status_of(run: &Run) -> u8
    ensures { result ≡ status_of_run run.now }
{
    if has_full(run.report.callers.as_slice()) {
        return DONE_WITH_FULL;
    }
    DONE
}

/// The end of a run that printed, and that has this status if all was printed.
fn end_after(printed: Printed, status: u8, run: Option<Run>) -> Ended
    ensures run { result.run ≡ run }
    ensures done { OnDone printed (result.status ≡ status) }
    ensures write_fault { OnWriteFault printed (result.status ≡ 7) }
{
    match printed {
        Printed::Done => Ended { status, run },
        Printed::WriteFault => Ended {
            status: WRITE_FAULT,
            run,
        },
    }
}

/// The end of a run that prints nothing.
fn end_silently(status: u8) -> Ended
    ensures run { result.run ≡ None }
    ensures status { result.status ≡ status }
{
    Ended { status, run: None }
}

/// The end of a run that was refused, with this status if its line was printed.
fn end_refused<K: Sink>(refusal: Refusal, status: u8, sink: &mut K) -> Ended
    requires { status ≢ 7 }
    ensures run { result.run ≡ None }
    ensures tells { Tells K.got K.faults sink.old sink.new (refusal_text refusal) status result }
{
    let printed = print_refusal(refusal, sink);
    end_after(printed, status, None)
}

/// Prints what the verdict owes.
pub fn conclude<K: Sink>(verdict: Verdict, sink: &mut K) -> Ended
    requires { HasText verdict }
    ensures { Concludes K.got K.faults sink.old sink.new verdict result }
{
    match verdict {
        Verdict::WordsRefused => end_refused(Refusal::Words, WORDS_REFUSED, sink),
        Verdict::Unlawful(Unlawful { set, reclaimer }) => {
            end_refused(Refusal::Pair { set, reclaimer }, UNLAWFUL, sink)
        }
        Verdict::ReadFault => end_silently(READ_FAULT),
        Verdict::TooLong => end_refused(Refusal::TooLong, TOO_LONG, sink),
        Verdict::WorkloadRefused(reason) => {
            end_refused(Refusal::Workload(reason), WORKLOAD_REFUSED, sink)
        }
        Verdict::OutOfMemory => end_silently(OUT_OF_MEMORY),
        Verdict::Checked(checked) => {
            let printed = print_checked(checked, sink);
            end_after(printed, DONE, None)
        }
        Verdict::Generated(text) => {
            let printed = print_text(text.as_slice(), sink);
            end_after(printed, DONE, None)
        }
        Verdict::Played(run) => {
            let printed = print_report(&run.report, sink);
            let status = status_of(&run);
            end_after(printed, status, Some(run))
        }
        Verdict::Tried(run) => {
            let printed = print_summary(&run.report, sink);
            let status = status_of(&run);
            end_after(printed, status, Some(run))
        }
    }
}
