//! The rule of the one table, for every set and every reclaimer: what holds of the words and of
//! what the callers know between any two atomic steps.
//!
//! In `specs/` read `Records` (where each record is), `Inputs` (what the facts may read), `Machines`,
//! `Facts` and `Laws` (what a set and a reclaimer give; `Guards` and `Least` are for those who give it),
//! `Frozen` (what a reclaimer owes where links of marked records are followed),
//! `Taken`, `Held` with `Known`, `Histories` and `Recorded` (what holds for all of them), and `World`, which
//! is the rule, with `Opening`, the state that a table starts in. Then come the kinds of step, each by what its
//! pass knows afterwards: `Kinds` (control loads, drawing, the owner's steps), `HandingOut`, `Asides` and
//! `ChainRows` (an own record), `Links` (the words of nodes), `ControlSteps` and `Freeing` (the
//! reclaimer's), `Splits` and `Meetings` (passes that part and meet). In `proofs/` each kind of step has a file,
//! over the moves of records, of what is held, of the list of those taken out, and of the history.
#![tactic(auto)]

mod world;

pub use world::{Cover, CoversFrozen, Shape, World};
