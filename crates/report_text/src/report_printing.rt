// Printing a report, line by line.
ghost use Rattle.std.specs.Prelude.{◌≡◌, ◌≤◌, ◌∷◌, length};
ghost use Rattle.text_lines.specs.Lines.{line, numbered, lines_text};
ghost use Rattle.report_text.specs.Printing.{Adds};
ghost use Rattle.report_text.specs.ReportText.{calls_in, reply_text, answered_text, answered_lines, size_text, records_text, played_lines, callers_lines, head_text, sizes_text, report_text};

use crate::printer::Printer;
use crate::report::{Played, Report};
use outside::Sink;
use set_model::{Call, Counts, Reply};
use text_lines::{reclaimer_word, set_word, write_call};

// What stands behind a call, up to the end of the line, in one piece.
fn reply_end(reply: Reply) -> &'static [u8]
    ensures text { result.now ≡ 32 ∷ line (reply_text reply) }
    ensures short { length result.now ≤ 8 }
{
    match reply {
        Reply::Yes => b" yes\n",
        Reply::No => b" no\n",
        Reply::Full => b" full\n",
    }
}

impl<'a, K: Sink> Printer<'a, K> {
    /// Prints a word and a number.
    pub fn numbered(&mut self, word: &[u8], number: u64)
        ensures { Adds K.got K.faults self.old self.new (numbered word.now number) }
    {
        self.text(word);
        self.text(b" ");
        self.number(number);
    }

    fn answered(&mut self, call: Call, reply: Reply)
        ensures { Adds K.got K.faults self.old self.new (line (answered_text call reply)) }
    {
        let mut buffer = [0; 32];
        self.text(write_call(call, reply_end(reply), &mut buffer));
    }

    fn answers(&mut self, calls: &[Call], replies: &[Reply])
        requires { length calls.now ≡ length replies.now }
        ensures { Adds K.got K.faults self.old self.new (lines_text (answered_lines calls.now replies.now)) }
    {
        for (i, call) in calls.iter().enumerate() {
            self.answered(*call, replies[i]);
        }
    }

    fn played(&mut self, caller: u64, played: &Played)
        ensures { Adds K.got K.faults self.old self.new (lines_text (played_lines caller played.now)) }
    {
        self.numbered(b"caller", caller);
        self.text(b"\n");
        self.answers(played.calls.as_slice(), played.replies.as_slice());
    }

    fn callers(&mut self, callers: &[Played])
        ensures { Adds K.got K.faults self.old self.new (lines_text (callers_lines 0 callers.now)) }
    {
        for (i, played) in callers.iter().enumerate() {
            self.played(i as u64, played);
        }
    }

    /// Prints the line of the number of keys and their sum.
    pub fn size(&mut self, report: &Report)
        ensures { Adds K.got K.faults self.old self.new (line (size_text report.now)) }
    {
        self.numbered(b"size", report.size);
        self.text(b" ");
        self.numbered(b"sum", report.sum);
        self.text(b"\n");
    }

    /// Prints how many callers there are, and how many calls.
    pub fn sizes(&mut self, callers: &[Played])
        ensures { Adds K.got K.faults self.old self.new (sizes_text callers.now) }
    {
        self.numbered(b"callers", callers.len() as u64);
        self.text(b" calls ");
        self.wide_number(calls_in(callers));
    }

    fn head(&mut self, report: &Report)
        ensures { Adds K.got K.faults self.old self.new (line (head_text report.now)) }
    {
        self.text(b"set ");
        self.text(set_word(report.set));
        self.text(b" reclaimer ");
        self.text(reclaimer_word(report.reclaimer));
        self.text(b" ");
        self.sizes(report.callers.as_slice());
        self.text(b"\n");
    }

    fn records(&mut self, counts: Counts)
        ensures { Adds K.got K.faults self.old self.new (line (records_text counts)) }
    {
        self.numbered(b"records drawn", counts.drawn);
        self.numbered(b" reused", counts.reused);
        self.numbered(b" retired", counts.retired);
        self.numbered(b" freed", counts.freed);
        self.numbered(b" limbo", counts.limbo);
        self.numbered(b" free", counts.free);
        self.numbered(b" spare", counts.spare);
        self.numbered(b" spent", counts.spent);
        self.text(b"\n");
    }

    /// Prints the text of a report.
    pub fn report(&mut self, report: &Report)
        ensures { Adds K.got K.faults self.old self.new (report_text report.now) }
    {
        self.head(report);
        self.callers(report.callers.as_slice());
        self.size(report);
        self.records(report.counts);
    }
}

/// How many calls the callers played, all together.
fn calls_in(callers: &[Played]) -> u128
    ensures { result ≡ calls_in callers.now }
{
    let mut total = 0;
    for played in callers {
        total += played.calls.as_slice().len() as u128;
    }
    total
}
