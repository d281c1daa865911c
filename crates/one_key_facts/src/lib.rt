//! A small set of records, the first exercise of an author: root n stands for the key n alone. Its link
//! leads nowhere, or to the one record with that key, and a mark in the record's link says that the key is
//! no longer in the set. Its facts and their laws, which are for proofs: it has no function.
#![tactic(auto)]
