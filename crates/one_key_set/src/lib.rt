//! A small set over a record manager, the first exercise of an author: root n stands for the key n alone.
//! Its link leads nowhere, or to the one record with that key. A mark in the record's link says that the
//! key is no longer in the set; whoever meets the mark may take the record out, and who does retires it.
#![tactic(auto)]

mod answers;
mod calls;
mod looking;
mod shape;
#[cfg(test)]
mod tests;

pub use answers::Added;
pub use calls::{insert, remove, search};
pub use looking::Seen;
pub use shape::OneKeyShape;
