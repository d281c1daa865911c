// Printing a trial's summary.
ghost use Rattle.std.specs.Prelude.{◌≡◌, ◌&&◌, cond, length};
ghost use Rattle.text_lines.specs.Lines.{line};
ghost use Rattle.report_text.specs.Printing.{Adds};
ghost use Rattle.report_text.specs.SummaryText.{is_yes, is_of, yes_among, yes_in, trial_text, tally_text, summary_text};

use crate::printer::Printer;
use crate::report::{Played, Report};
use outside::Sink;
use set_model::{Call, Reply};
use text_lines::{reclaimer_word, set_word};

/// A kind of call.
#[derive(Clone, Copy)]
enum Kind {
    Insertion,
    Removal,
    Lookup,
}

/// Whether the call is of the kind.
fn is_of(kind: Kind, call: Call) -> bool
    ensures { result ≡ is_of kind call }
{
    match kind {
        Kind::Insertion => matches!(call, Call::Insert(_)),
        Kind::Removal => matches!(call, Call::Remove(_)),
        Kind::Lookup => matches!(call, Call::Search(_)),
    }
}

/// One for a call of the kind that was answered yes, and nothing for any other.
fn counts(kind: Kind, call: Call, reply: Reply) -> usize
    ensures { result ≡ cond (is_of kind call && is_yes reply) 1 0 }
{
    match reply {
        Reply::Yes if is_of(kind, call) => 1,
        _ => 0,
    }
}

/// How many calls of the kind were answered yes.
fn yes_among(kind: Kind, calls: &[Call], replies: &[Reply]) -> usize
    requires { length calls.now ≡ length replies.now }
    ensures { result ≡ yes_among kind calls.now replies.now }
{
    let mut count = 0;
    for (i, call) in calls.iter().enumerate() {
        count += counts(kind, *call, replies[i]);
    }
    count
}

/// How many calls of the kind were answered yes, of all callers.
fn yes_in(kind: Kind, callers: &[Played]) -> u128
    ensures { result ≡ yes_in kind callers.now }
{
    let mut total = 0;
    for played in callers {
        let yes = yes_among(kind, played.calls.as_slice(), played.replies.as_slice());
        total += yes as u128;
    }
    total
}

impl<'a, K: Sink> Printer<'a, K> {
    fn trial(&mut self, report: &Report)
        ensures { Adds K.got K.faults self.old self.new (line (trial_text report.now)) }
    {
        self.text(b"trial ");
        self.text(set_word(report.set));
        self.text(b" ");
        self.text(reclaimer_word(report.reclaimer));
        self.text(b" ");
        self.sizes(report.callers.as_slice());
        self.text(b"\n");
    }

    fn tally(&mut self, callers: &[Played])
        ensures { Adds K.got K.faults self.old self.new (line (tally_text callers.now)) }
    {
        self.text(b"inserted ");
        self.wide_number(yes_in(Kind::Insertion, callers));
        self.text(b" removed ");
        self.wide_number(yes_in(Kind::Removal, callers));
        self.text(b" found ");
        self.wide_number(yes_in(Kind::Lookup, callers));
        self.text(b"\n");
    }

    /// Prints the summary of a trial.
    pub fn summary(&mut self, report: &Report)
        ensures { Adds K.got K.faults self.old self.new (summary_text report.now) }
    {
        self.trial(report);
        self.tally(report.callers.as_slice());
        self.size(report);
    }
}
