//! The one history of a set as its callers see it.
//!
//! The updates of a table stand in one list, in the order of the steps that decided them. The front
//! of a pass is a beginning of this list: its caller knows these updates to come before whatever it
//! does next. Callers that never meet know nothing of each other's order.
#![tactic(auto)]

mod meeting;
mod placing;

pub use meeting::meet;
pub use placing::place;
