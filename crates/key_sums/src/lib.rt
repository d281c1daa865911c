//! What the keys of a set add up to: by the replies that its callers got, and by a walk over the table that
//! they left.
//!
//! Both count in their own way, and neither reads what the other does. That they agree is a theorem on
//! legal histories.
#![tactic(auto)]

mod balance;
mod closing_walk;
mod counting;
mod tallies;

pub use balance::show_balance;
pub use closing_walk::size_and_sum;
pub use counting::tally;
pub use tallies::Tally;
