//! What a run asks of a set of keys that callers share, and what it may rest on.
//!
//! A set's callers each make their calls one after another, and beside one another. Of each call the set
//! says what its answer means in the one history of the table, and which steps its caller made. What
//! those steps are is the set's own grammar; whoever plays a workload passes it on and never looks in.
#![tactic(auto)]

mod answer;
mod set;

pub use answer::Answer;
pub use set::ConcurrentSet;
