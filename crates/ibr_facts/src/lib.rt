//! The facts that interval-based reclamation (2GEIBR) keeps of the table's records and guards, and the laws of a
//! reclaimer proved of them.
//!
//! Each caller announces an interval of epochs, each record lives from its birth to its stamp, and a caller holds
//! only what its interval meets. So a record may leave limbo once it meets no announced interval. In `specs/` read
//! `Intervals` (which records an interval meets) and `Keeping` (what holds, and what each step does to a guard). All
//! of it is for proofs.
#![tactic(auto)]
