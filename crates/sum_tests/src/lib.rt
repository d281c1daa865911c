//! Tests of the sums: calls on Michael's list without reclamation, made by callers in turn, their tallies, and what
//! the table that they leave adds up to. The sizes and sums of the rows are worked out by hand.
#![tactic(auto)]

#[cfg(test)]
mod rows;
mod turns;

pub use turns::{close_sums, play_call, play_in_turn};
