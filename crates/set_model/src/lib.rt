//! Calls on a set of keys and their replies, and the set machine of one thread that answers them.
//!
//! The machine is a definition on finite sets of keys (`specs/Machine.antt`), so that every
//! concurrent set of this repository is compared with the same one. `PlainSet` runs it on a sorted
//! vector, and `legal_run` tests a list of replies against it.
#![tactic(auto)]

mod calls;
mod names;
mod plain_set;
mod runs;
#[cfg(test)]
mod tests;

pub use calls::{Call, Counts, InsertAnswer, LookAnswer, OutOfMemory, Reply, Update};
pub use names::{AllocatorName, ReclaimerName, SetName};
pub use plain_set::PlainSet;
pub use runs::{legal_run, updates_take_turns};
