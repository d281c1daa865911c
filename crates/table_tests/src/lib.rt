//! Tests of the table together with the crates above it: drawing and setting aside, chains through
//! its rows, a list by steps on its nodes, callers in several threads, meetings, pools and managers. What they
//! share stands in `types`, `opening`, `drawing` and `closing`, for measurements, too; `first_look` shows what a
//! first load lets its caller place, `looks` loads words that nobody may change, and `sets` says what no set can be.
#![tactic(auto)]

#[cfg(test)]
mod chains;
mod closing;
mod drawing;
mod first_look;
mod looks;
mod opening;
mod sets;
mod types;

pub use closing::{close_lists, take_last};
pub use drawing::draw_aside;
pub use first_look::look_first;
pub use looks::{look_at_cursor, look_at_drawn, look_at_shelf};
pub use opening::open;
pub use sets::no_set_ties_nothing;
pub use types::{ListPass, ListTable, MichaelShape};

#[cfg(test)]
mod lists;
#[cfg(test)]
mod managers;
#[cfg(test)]
mod meetings;
#[cfg(test)]
mod numbers;
#[cfg(test)]
mod pools;
#[cfg(test)]
mod tests;
#[cfg(test)]
mod threads;
