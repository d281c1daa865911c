//! What the replies of a run on a set that callers share say of the closed table's one history. All of it is for proofs.
#![tactic(auto)]
