//! Workloads made by pseudorandom numbers.
//!
//! Which calls a plan gives is a definition (`specs/Generated.antt`) over the outputs of a PCG
//! generator (O'Neill), each caller with a stream of its own. So a plan gives the same workload
//! wherever it is made, and how many callers there are doesn't change a caller's words.
#![tactic(auto)]

mod generating;
mod making;
mod plan;

pub use generating::generate;
pub use plan::GenPlan;

#[cfg(test)]
mod tests;
