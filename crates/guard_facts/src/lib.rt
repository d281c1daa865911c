//! What the facts of the reclaimers that free have in common: how they read a guard, and what becomes of
//! guards and records in their moves. All of it is for proofs.
#![tactic(auto)]
