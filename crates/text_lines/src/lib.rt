//! Lines, calls, numbers and names, which the texts of workloads and reports and the command words share.
//!
//! A line is its bytes and a line feed (`specs/Lines.antt`). A number is its decimal digits without
//! a sign or a leading zero (`specs/Numbers.antt`). Sets and reclaimers have one name each
//! (`specs/Names.antt`).
#![tactic(auto)]

mod calls;
mod names;
mod numbers;

pub use calls::write_call;
pub use names::{reclaimer_word, set_word};
pub use numbers::{Number, read_number};

#[cfg(test)]
mod tests;
