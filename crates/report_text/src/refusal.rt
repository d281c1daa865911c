// Why a run was refused, as its line tells it.
ghost use Rattle.std.specs.Prelude.{◌≡◌};
ghost use Rattle.report_text.specs.LineTexts.{wrong_line, reason_text, cause_text, refusal_text};
ghost use Rattle.report_text.specs.Printing.{Adds};

use crate::printer::Printer;
use outside::Sink;
use set_model::{ReclaimerName, SetName};
use text_lines::{reclaimer_word, set_word};

/// Why bytes are no workload's text. A line is told by its number, from 1.
#[derive(Clone, Copy, Debug, PartialEq, Eq)]
pub enum WorkloadRefusal {
    /// The first line names no version.
    Header,
    /// The second line names no number of callers.
    Callers,
    /// A line that may not stand there.
    BadLine {
        /// Its number.
        line: u32,
    },
    /// A call whose key is too large.
    KeyRange {
        /// The number of its line.
        line: u32,
    },
    /// Each line may stand where it stands, and none is the last one.
    NoEnd,
    /// A call that is one too many.
    TooManyCalls {
        /// The number of its line.
        line: u32,
    },
}

/// Why a run was refused.
#[derive(Clone, Copy, Debug, PartialEq, Eq)]
pub enum Refusal {
    /// The words are no command.
    Words,
    /// The bytes are no workload's text.
    Workload(WorkloadRefusal),
    /// The set may not be played under the reclaimer.
    Pair {
        /// The set.
        set: SetName,
        /// The reclaimer.
        reclaimer: ReclaimerName,
    },
    /// The source gave more bytes than a workload may have.
    TooLong,
}

impl<'a, K: Sink> Printer<'a, K> {
    fn wrong_line(&mut self, number: u32, what: &[u8])
        ensures { Adds K.got K.faults self.old self.new (wrong_line number what.now) }
    {
        self.numbered(b"line", u64::from(number));
        self.text(b": ");
        self.text(what);
    }

    fn reason(&mut self, reason: WorkloadRefusal)
        ensures { Adds K.got K.faults self.old self.new (reason_text reason) }
    {
        match reason {
            WorkloadRefusal::Header => self.wrong_line(1, b"header"),
            WorkloadRefusal::Callers => self.wrong_line(2, b"callers"),
            WorkloadRefusal::BadLine { line } => self.wrong_line(line, b"bad line"),
            WorkloadRefusal::KeyRange { line } => self.wrong_line(line, b"key out of range"),
            WorkloadRefusal::NoEnd => self.text(b"no end"),
            WorkloadRefusal::TooManyCalls { line } => self.wrong_line(line, b"too many calls"),
        }
    }

    fn cause(&mut self, refusal: Refusal)
        ensures { Adds K.got K.faults self.old self.new (cause_text refusal) }
    {
        match refusal {
            Refusal::Words => self.text(b"words refused"),
            Refusal::Workload(reason) => {
                self.text(b"workload refused: ");
                self.reason(reason);
            }
            Refusal::Pair { set, reclaimer } => {
                self.text(set_word(set));
                self.text(b" under ");
                self.text(reclaimer_word(reclaimer));
                self.text(b" is not lawful");
            }
            Refusal::TooLong => self.text(b"workload too long"),
        }
    }

    /// Prints the line of a refusal.
    pub fn refusal(&mut self, refusal: Refusal)
        ensures { Adds K.got K.faults self.old self.new (refusal_text refusal) }
    {
        self.text(b"setbench: ");
        self.cause(refusal);
        self.text(b"\n");
    }
}
