//! DEBRA: the facts that it keeps of the table's records, and the laws of a reclaimer proved of them. All of
//! it is for proofs.
#![tactic(auto)]
