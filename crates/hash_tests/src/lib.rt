//! Tests of Michael's hash table: over a manager that frees nothing, answers worked out by hand at one bucket and at many,
//! through the calls that any set has, and what a table is refused for; under each reclaimer that frees,
//! records that come back or are spent, and records that another caller holds.
#![tactic(auto)]

#[cfg(test)]
mod debra;
#[cfg(test)]
mod hazard;
#[cfg(test)]
mod holding;
#[cfg(test)]
mod ibr;
#[cfg(test)]
mod one_caller;
#[cfg(test)]
mod reclaimed;
#[cfg(test)]
mod refusals;
#[cfg(test)]
mod shelves;
