//! Runs of the benchmark: from the words of the command and the bytes of a source to the bytes of a
//! sink and a status.
#![tactic(auto)]

mod ending;
mod judging;
mod playing;
mod reading;
mod runs;
mod settings;
mod tables;
mod top;

pub use ending::{Ended, OUT_OF_MEMORY, Run};
pub use runs::{check_run, generate_run, play_run, trial_run};
pub use settings::Settings;
pub use top::setbench;

#[cfg(test)]
mod fault_tests;
#[cfg(test)]
mod refusal_tests;
#[cfg(test)]
mod run_tests;
#[cfg(test)]
mod tests;
