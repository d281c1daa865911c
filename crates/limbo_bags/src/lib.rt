//! Chains of records through the chain words of their rows, so that limbo bags and free chains take
//! no memory of their own.
//!
//! A `Chain` has the first record and how many there are. `specs/Chains.antt` says for which list of
//! records it stands, and each call says what it does to that list.
#![tactic(auto)]

mod cutting;
mod ends;
mod moving;
mod sifting;

pub use cutting::{CUT, cut};
pub use ends::{pop, push};
pub use moving::move_all;
pub use sifting::{Keeps, sift};

#[cfg(test)]
mod tests;
