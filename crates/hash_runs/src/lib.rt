//! Runs of a workload on Michael's hash table: under any reclaimer, and a function for each one that is built. One that
//! joins adds a function and its manner.
#![tactic(auto)]

mod debra;
mod hash;
mod hazard;
mod ibr;
mod none;
mod sparing;

pub use debra::play_hash_debra;
pub use hash::play_hash;
pub use hazard::play_hash_hazard;
pub use ibr::play_hash_ibr;
pub use none::play_hash_none;
pub use sparing::show_sparing;
