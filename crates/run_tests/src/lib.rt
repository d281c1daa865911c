//! Tests of runs: workloads with several callers and phases, played by callers in threads of their own on Michael's hash
//! table without reclamation, and what the closed table adds up to.
#![tactic(auto)]

#[cfg(test)]
mod rows;
#[cfg(test)]
mod side_by_side;
