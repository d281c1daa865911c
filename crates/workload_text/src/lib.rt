//! Workloads, phases of calls for each caller, and the one text of each.
//!
//! The text is defined as a list of lines (`specs/Text.antt`), and determines its workload. Which
//! line may follow which is a table (`specs/Following.antt`): the lines that may all follow, up to
//! `end`, are those of a workload, and a refusal names the first line that may not
//! (`specs/Refusals.antt`). `read_workload` answers by both, and `write_workload` gives the text.
#![tactic(auto)]

mod error;
mod lines;
mod phases;
mod progress;
mod reading;
mod seen;
mod turns;
mod workload;
mod writing;

pub use error::WorkloadError;
pub use reading::{read_workload, table_tells_workloads, text_tells_workload};
pub use workload::{MOST_CALLERS, MOST_CALLS, MOST_KEY, MOST_PHASE_LINES, Workload};
pub use writing::write_workload;

#[cfg(test)]
mod tests;
