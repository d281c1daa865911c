//! The facts that reclaimers keep of the table's records, and the laws of a reclaimer proved of them. What
//! they share stands here once. All of it is for proofs.
#![tactic(auto)]
