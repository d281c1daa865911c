//! The texts that the program prints, and their printing to a sink.
//!
//! Each text is a definition: that of a report (`specs/ReportText.antt`), of a trial's summary
//! (`specs/SummaryText.antt`), and of the lines of `check` and of each refusal
//! (`specs/LineTexts.antt`). A call that prints answers `Done` where the sink got just that text,
//! and `WriteFault` where a put failed, and then the sink got a front of it. Printing takes no
//! memory: the bytes wait in a buffer of 4,096, which is put when it is full and at the end.
#![tactic(auto)]

mod checked;
mod printer;
mod printing;
mod refusal;
mod report;
mod report_printing;
mod summary_printing;

pub use checked::Checked;
pub use printing::{
    print_checked, print_line, print_refusal, print_report, print_summary, print_text,
};
pub use refusal::{Refusal, WorkloadRefusal};
pub use report::{Played, Printed, Report};

#[cfg(test)]
mod tests;
