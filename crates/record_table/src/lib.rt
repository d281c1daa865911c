//! The one table of atomic words, whose rows are records, under a rule that holds between any two
//! atomic steps, for every set and every reclaimer.
//!
//! A record is drawn once and handed out with its first generation, and once it is free it may be handed
//! out again with its next one. Each atomic step is one function,
//! and contracts see what it does as an equation on what its pass knows (`View`).
#![tactic(auto)]

// Types: what steps are on.
mod nodes;
// Types: what a caller makes its steps with.
mod passes;

// Plays: what a step tells, for the proofs alone.
mod plays;

// Steps: the table, with one function for each kind of atomic step. No other module sees its words.
mod table;

// Calls: setting own records aside, and taking them again.
mod asides;
// Calls: joining passes, and closing a table.
mod closing;
// Calls: steps on control words.
mod controls;
// Calls: the owner's steps on a record.
mod fields;
// Calls: following links of records that may be marked.
mod frozen;
// Calls: handing records out.
mod hand_out;
// Calls: steps on the words of roots and of held records.
mod links;
// Calls: stores in links by the callers that have them locked.
mod locked;
// Calls: making a table with its passes.
mod making;
// Calls: how the front of one pass reaches another.
mod meeting;
// Calls: the numbers of a table, and where its words lie.
mod numbers;
// Calls: the words that a table is made with.
mod opening;
// Calls: placing reads among the updates.
mod placing;
// Calls: retiring a record that was taken out.
mod retiring;
// Calls: taking free records, to hand them out again.
mod reuse;
// Calls: a caller's rows, for chains through them.
mod rows;
// Calls: steps on the shelves of the pool.
mod shelves;

pub use closing::Closed;
pub use hand_out::Own;
pub use making::{PrepareError, prepare};
pub use meeting::Front;
pub use nodes::{Found, Held, Node};
pub use passes::Pass;
pub use record_rule::{Cover, CoversFrozen, Shape, World};
pub use retiring::TakenOut;
pub use rows::Rows;
pub use table::Table;

#[cfg(test)]
mod crossing;
#[cfg(test)]
mod tests;
