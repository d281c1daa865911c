//! The report of a run on a table of records, for any set of sorted lists under any reclaimer.
#![tactic(auto)]

mod reporting;

pub use reporting::{TableRun, report_table};
