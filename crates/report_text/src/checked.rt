// What `check` tells of a workload.
ghost use Rattle.std.specs.Prelude.{◌≡◌};
ghost use Rattle.text_lines.specs.Lines.{numbered};
ghost use Rattle.report_text.specs.LineTexts.{phases_text, checked_text};
ghost use Rattle.report_text.specs.Printing.{Adds};

use crate::printer::Printer;
use outside::Sink;

/// The sizes of a workload that was read.
#[derive(Clone, Copy, Debug, PartialEq, Eq)]
pub struct Checked {
    /// How many callers it has.
    pub callers: u32,
    /// How many calls it has, of all callers together.
    pub calls: u32,
    /// How many `phase` lines each caller has, where its text is of version 2.
    pub phases: Option<u32>,
}

impl<'a, K: Sink> Printer<'a, K> {
    fn phases(&mut self, phases: Option<u32>)
        ensures { Adds K.got K.faults self.old self.new (phases_text phases) }
    {
        if let Some(phases) = phases {
            self.text(b" ");
            self.numbered(b"phases", u64::from(phases));
        }
    }

    /// Prints the line of `check`.
    pub fn checked(&mut self, checked: Checked)
        ensures { Adds K.got K.faults self.old self.new (checked_text checked) }
    {
        self.numbered(b"ok callers", u64::from(checked.callers));
        self.text(b" ");
        self.numbered(b"calls", u64::from(checked.calls));
        self.phases(checked.phases);
        self.text(b"\n");
    }
}
