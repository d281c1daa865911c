// How one caller learns what another one has seen.
ghost use Rattle.std.specs.Prelude.{◌≡◌, ◌⊎◌};
ghost use Rattle.record_rule.specs.World.{StartsWith};
ghost use Rattle.record_table.specs.Handles.{view, IsPassOf, IsSamePass};
ghost use Rattle.manager.specs.Callers.{IsResting};

use crate::types::{Caller, Manager};
use alloc_api::Allocator;
use pool::Pool;
use reclaim_api::Scheme;
use record_table::Shape;

impl<S: Shape, R: Scheme, A: Allocator, P: Pool> Manager<S, R, A, P> {
    /// Lets the caller `into` learn what the caller `from` has seen: afterwards whatever `from` had seen
    /// comes before each later call of `into`. Neither is inside an operation, and nothing else that they
    /// know changes.
    pub fn meet(&self, from: &mut Caller<S, R>, into: &mut Caller<S, R>)
        requires of { IsPassOf self.now.table from.old.pass × IsPassOf self.now.table into.old.pass }
        requires callers { IsResting R.is_local from.old × IsResting R.is_local into.old }
        ensures of { IsPassOf self.now.table from.new.pass × IsPassOf self.now.table into.new.pass }
        ensures from_caller { IsResting R.is_local from.new }
        ensures into_caller { IsResting R.is_local into.new }
        ensures from_pass { IsSamePass from.old.pass from.new.pass }
        ensures into_pass { IsSamePass into.old.pass into.new.pass }
        ensures unchanged { view from.new.pass ≡ view from.old.pass }
        ensures own { StartsWith (view into.new.pass).front (view into.old.pass).front }
        ensures met { StartsWith (view into.new.pass).front (view from.old.pass).front }
        ensures longer { ((view into.new.pass).front ≡ (view into.old.pass).front) ⊎ ((view into.new.pass).front ≡ (view from.old.pass).front) }
        ensures rest { view into.new.pass ≡ record (view into.old.pass) { front = (view into.new.pass).front } }
    {
        set_history::meet(&self.table, &mut from.pass, &mut into.pass);
    }
}
