//! What the calls of any sorted list over a guard share: where a walker stands, and the record that an insertion has from
//! its tries, which it takes, hands on from try to try, and gives back where it needs none.
//!
//! A record is taken once a walk found its key absent, and by the first such try alone; so a call takes one record at
//! most. A walker knows of its node its list and its rank, and both stay while the node is held. Nearly all of this crate
//! is for contracts and proofs.
#![tactic(auto)]

mod places;
mod taking;

pub use places::place_behind;
pub use taking::{give_back, take_record, target_of};
