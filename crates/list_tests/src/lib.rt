//! Tests of Michael's list over a manager that frees nothing: answers worked out by hand, budgets that run out,
//! records that run out, and two callers in turn.
#![tactic(auto)]

#[cfg(test)]
mod budgets;
#[cfg(test)]
mod in_turn;
#[cfg(test)]
mod interleaved;
mod playing;

pub use playing::{TestCaller, TestList, insert, last_caller, last_two, remove, search};
