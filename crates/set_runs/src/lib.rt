//! Playing a workload on a set that callers share: phase by phase, and in each phase all callers at the
//! same time.
//!
//! Nothing here names a set or a reclaimer. What is promised of a run is said of the table as it was
//! closed: from the book that each caller began with to the book that the closed table has of it lead its
//! calls, one after another, each with its reply and by its set's own steps.
#![tactic(auto)]

mod meeting;
mod phases;
mod players;
mod runs;
mod seats;
mod totals;

pub use players::Player;
pub use runs::{Played, play_set, play_workload};
pub use seats::{Seats, seat_all};
pub use totals::NO_COUNTS;
