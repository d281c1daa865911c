//! What a record manager runs of a reclaimer, and what it may rest on.
//!
//! A reclaimer decides when a record that was taken out may be handed out again. It is told when a
//! caller begins and ends an operation, answers whether a caller holds what a link leads to, and takes
//! the records that are retired. The front is that of Brown's record manager ("Reclaiming memory for
//! lock-free data structures: there has to be a better way", PODC 2015), with the guard of Rust's
//! crossbeam-epoch; that each call's steps are a relation of its own is this project's.
#![tactic(auto)]

mod chains;
mod following;
mod holding;
mod scheme;

pub use chains::put_first;
pub use following::{Follows, Reached, follow};
pub use holding::Holding;
pub use scheme::{NONE_FREED, Scheme};
