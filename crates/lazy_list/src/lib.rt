//! The lazy list over a record manager: a sorted linked list of keys for each root, whose updates lock links, and whose
//! walks lock nothing and pass marked records (Heller, Herlihy, Luchangco, Moir, Scherer and Shavit, "A lazy concurrent
//! list-based set algorithm", OPODIS 2005). Its insertion and its search stand here for a caller that is inside a guard, and
//! the pieces of a removal, which is to come.
//!
//! A walk follows every link, and so never starts again; a key that it doesn't find it may have missed by a mark, and then the
//! absence is placed in the past. A caller waits for no lock: it tries to lock a link by one exchange, and where the link was
//! another, or was locked, it changed nothing. What it has locked it alone changes, and each such step takes the lock off.
#![tactic(auto)]

mod inserting;
mod locking;
mod placing;
mod searching;
mod shape;
mod spots;
mod updating;
mod walking;

pub use inserting::insert;
pub use locking::{lock, unlock};
pub use placing::place_at_mark;
pub use searching::{place_absent, search};
pub use shape::LazyShape;
pub use spots::{Landing, Spot};
pub use updating::{link_locked, mark_locked, take_out_locked};
pub use walking::find;
