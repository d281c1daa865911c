//! The words of a record's row: references, links, keys and numbers as types, and how they are
//! packed into 64 bits under the generation of the record that the word belongs to.
//!
//! The layout is this project's own and stands in `specs/Packing.antt`. Each reading call gives
//! back what the packing call was given (`proofs/Packed.antt`).
#![tactic(auto)]

mod chain_words;
mod links;
mod packing;
mod refs;

pub use chain_words::ChainWords;
pub use links::{Chain, Freed, LOCK, Link, MARK};
pub use packing::{
    key_of, kind_of, link_of, number_of, own_of, pack_key, pack_link, pack_number, pack_ref, ref_of,
};
pub use refs::{Generation, Ref};

#[cfg(test)]
mod tests;
