// Printing whole texts.
ghost use Rattle.std.specs.Prelude.{◌≡◌, ℕ, List};
ghost use Rattle.outside.specs.Faults.{Rose, one_more};
ghost use Rattle.text_lines.specs.Lines.{line};
ghost use Rattle.report_text.specs.Printed.{OnDone, OnWriteFault};
ghost use Rattle.report_text.specs.Printing.{Adds};
ghost use Rattle.report_text.specs.LineTexts.{checked_text, refusal_text};
ghost use Rattle.report_text.specs.ReportText.{report_text};
ghost use Rattle.report_text.specs.SummaryText.{summary_text};
ghost use Rattle.report_text.specs.Writing.{Wrote, WrotePart};

use crate::checked::Checked;
use crate::printer::Printer;
use crate::refusal::Refusal;
use crate::report::{Printed, Report};
use outside::Sink;

/// What has a text.
trait Printable {
    /// The text.
    ghost text: { Self → List ℕ };

    /// Prints the text.
    fn print_to<K: Sink>(&self, printer: &mut Printer<'_, K>)
        ensures { Adds K.got K.faults printer.old printer.new (text self.now) };
}

/// Prints a text, all of it or up to the first put that fails.
fn print<T: Printable, K: Sink>(printable: &T, sink: &mut K) -> Printed
    ensures done { OnDone result (Wrote K.got sink.old sink.new (T.text printable.now)) }
    ensures part { OnWriteFault result (WrotePart K.got sink.old sink.new (T.text printable.now)) }
    ensures kept { OnDone result (K.faults sink.new ≡ K.faults sink.old) }
    ensures counted { OnWriteFault result (K.faults sink.new ≡ one_more (K.faults sink.old)) }
    ensures cause { OnWriteFault result (Rose (K.faults sink.old) (K.faults sink.new)) }
{
    let mut printer = Printer::new(sink);
    printable.print_to(&mut printer);
    printer.finish()
}

impl Printable for Report {
    ghost text = { report_text };

    fn print_to<K: Sink>(&self, printer: &mut Printer<'_, K>) {
        printer.report(self);
    }
}

/// The summary of a trial's report.
#[derive(Clone, Copy)]
struct Summary<'a>(&'a Report);

impl Printable for Summary<'_> {
    ghost text = { λ s. summary_text s.0.now };

    fn print_to<K: Sink>(&self, printer: &mut Printer<'_, K>) {
        printer.summary(self.0);
    }
}

impl Printable for Checked {
    ghost text = { checked_text };

    fn print_to<K: Sink>(&self, printer: &mut Printer<'_, K>) {
        printer.checked(*self);
    }
}

impl Printable for Refusal {
    ghost text = { refusal_text };

    fn print_to<K: Sink>(&self, printer: &mut Printer<'_, K>) {
        printer.refusal(*self);
    }
}

/// A text with a line feed behind it.
#[derive(Clone, Copy)]
struct Line<'a>(&'a str);

impl Printable for Line<'_> {
    ghost text = { λ s. line s.0.now };

    fn print_to<K: Sink>(&self, printer: &mut Printer<'_, K>) {
        printer.text(self.0.as_bytes());
        printer.text(b"\n");
    }
}

/// A text that was made before.
#[derive(Clone, Copy)]
struct Text<'a>(&'a [u8]);

impl Printable for Text<'_> {
    ghost text = { λ s. s.0.now };

    fn print_to<K: Sink>(&self, printer: &mut Printer<'_, K>) {
        printer.text(self.0);
    }
}

/// Prints the text of a report: the parts and the sizes, each caller's calls with their replies, the
/// number of keys and their sum, and the counts of the records. `WriteFault` comes where a put failed.
pub fn print_report<K: Sink>(report: &Report, sink: &mut K) -> Printed
    ensures done { OnDone result (Wrote K.got sink.old sink.new (report_text report.now)) }
    ensures part { OnWriteFault result (WrotePart K.got sink.old sink.new (report_text report.now)) }
    ensures kept { OnDone result (K.faults sink.new ≡ K.faults sink.old) }
    ensures counted { OnWriteFault result (K.faults sink.new ≡ one_more (K.faults sink.old)) }
    ensures cause { OnWriteFault result (Rose (K.faults sink.old) (K.faults sink.new)) }
{
    print(report, sink)
}

/// Prints the summary of a trial: the parts and the sizes, how many insertions, removals and searches
/// were answered yes, and the number of keys and their sum. `WriteFault` comes where a put failed.
pub fn print_summary<K: Sink>(report: &Report, sink: &mut K) -> Printed
    ensures done { OnDone result (Wrote K.got sink.old sink.new (summary_text report.now)) }
    ensures part { OnWriteFault result (WrotePart K.got sink.old sink.new (summary_text report.now)) }
    ensures kept { OnDone result (K.faults sink.new ≡ K.faults sink.old) }
    ensures counted { OnWriteFault result (K.faults sink.new ≡ one_more (K.faults sink.old)) }
    ensures cause { OnWriteFault result (Rose (K.faults sink.old) (K.faults sink.new)) }
{
    print(&Summary(report), sink)
}

/// Prints what `check` found. `WriteFault` comes where a put failed.
pub fn print_checked<K: Sink>(checked: Checked, sink: &mut K) -> Printed
    ensures done { OnDone result (Wrote K.got sink.old sink.new (checked_text checked)) }
    ensures part { OnWriteFault result (WrotePart K.got sink.old sink.new (checked_text checked)) }
    ensures kept { OnDone result (K.faults sink.new ≡ K.faults sink.old) }
    ensures counted { OnWriteFault result (K.faults sink.new ≡ one_more (K.faults sink.old)) }
    ensures cause { OnWriteFault result (Rose (K.faults sink.old) (K.faults sink.new)) }
{
    print(&checked, sink)
}

/// Prints why a run was refused. `WriteFault` comes where a put failed.
pub fn print_refusal<K: Sink>(refusal: Refusal, sink: &mut K) -> Printed
    ensures done { OnDone result (Wrote K.got sink.old sink.new (refusal_text refusal)) }
    ensures part { OnWriteFault result (WrotePart K.got sink.old sink.new (refusal_text refusal)) }
    ensures kept { OnDone result (K.faults sink.new ≡ K.faults sink.old) }
    ensures counted { OnWriteFault result (K.faults sink.new ≡ one_more (K.faults sink.old)) }
    ensures cause { OnWriteFault result (Rose (K.faults sink.old) (K.faults sink.new)) }
{
    print(&refusal, sink)
}

/// Prints a line, and a line feed behind it. `WriteFault` comes where a put failed.
pub fn print_line<K: Sink>(text: &str, sink: &mut K) -> Printed
    ensures done { OnDone result (Wrote K.got sink.old sink.new (line text.now)) }
    ensures part { OnWriteFault result (WrotePart K.got sink.old sink.new (line text.now)) }
    ensures kept { OnDone result (K.faults sink.new ≡ K.faults sink.old) }
    ensures counted { OnWriteFault result (K.faults sink.new ≡ one_more (K.faults sink.old)) }
    ensures cause { OnWriteFault result (Rose (K.faults sink.old) (K.faults sink.new)) }
{
    print(&Line(text), sink)
}

/// Prints a text that was made before. `WriteFault` comes where a put failed.
pub fn print_text<K: Sink>(text: &[u8], sink: &mut K) -> Printed
    ensures done { OnDone result (Wrote K.got sink.old sink.new text.now) }
    ensures part { OnWriteFault result (WrotePart K.got sink.old sink.new text.now) }
    ensures kept { OnDone result (K.faults sink.new ≡ K.faults sink.old) }
    ensures counted { OnWriteFault result (K.faults sink.new ≡ one_more (K.faults sink.old)) }
    ensures cause { OnWriteFault result (Rose (K.faults sink.old) (K.faults sink.new)) }
{
    print(&Text(text), sink)
}
