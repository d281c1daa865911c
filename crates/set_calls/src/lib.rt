//! What the calls of a set of keys over a guard share, whichever set it is: what an answer says of its caller's front,
//! what a caller has seen of a key, how calls of a guard that answer nothing stand one behind another, and what the two
//! stores make of an own record. Nearly all of it is for contracts and proofs.
//!
//! A call of a set looks until it has seen the key, places what it read or makes the step that decides, and gives back
//! what it doesn't need. This order is Michael's ("High performance dynamic lock-free hash tables and list-based sets",
//! SPAA 2002); that an answer is placed behind what its caller knew of is this project's.
#![tactic(auto)]

mod nodes;
mod placing;

pub use nodes::{same_held, same_node};
pub use placing::{place_reached, place_seen};
