//! The words of the command.
//!
//! The first word is the mode: `play`, `check`, `generate` or `trial`. After it come pairs of words,
//! a name and a value, in any order. `specs/Commands.antt` says which command lawful words name, and
//! `read_command` answers just that one. It takes no memory.
#![tactic(auto)]

mod command;
mod options;
mod reading;
mod values;

pub use command::{Command, PlayWords, TrialWords, Workloads};
pub use reading::read_command;

#[cfg(test)]
mod tests;
