//! Michael's list over a record manager: a sorted linked list of keys for each root, without locks.
//!
//! A mark in a record's link says that its key is no longer in the set; whoever meets the mark may take the record
//! out, and who does retires it (Michael, "High performance dynamic lock-free hash tables and list-based sets",
//! SPAA 2002). Each call is one guard, and its contract names what the guard did, event by event, without naming
//! a reclaimer. After each unlinking the predecessor's link is tried anew, and a remover whose unlinking failed leaves
//! the record to a later walk: these two rules are this project's.
//!
//! `find`, `link_record`, `mark`, `take_out` and `place_absent` are the pieces of the calls, for a caller that is inside a
//! guard.
#![tactic(auto)]

mod inserting;
mod list;
mod meeting;
mod removing;
mod shape;
mod spots;
mod walking;

pub use inserting::link_record;
pub use list::MichaelList;
pub use removing::{mark, place_absent};
pub use shape::MichaelShape;
pub use spots::{Landing, Spot};
pub use walking::{find, take_out};
