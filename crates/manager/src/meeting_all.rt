// How all callers learn what each of them has seen.
ghost use Rattle.std.specs.Prelude.{◌≡◌, All};
ghost use Rattle.record_table.specs.Handles.{view};
ghost use Rattle.record_table.specs.Closing.{AreAllPasses};
ghost use Rattle.manager.specs.Callers.{IsResting};
ghost use Rattle.manager.specs.Made.{passes_of};
ghost use Rattle.manager.specs.Meeting.{IsAtRest, AreAtRest, HasMet, HaveMet, HasGathered, HaveLearnt, HaveAllMet};

use crate::types::{Caller, Manager};
use alloc_api::Allocator;
use pool::Pool;
use reclaim_api::Scheme;
use record_table::Shape;

impl<S: Shape, R: Scheme, A: Allocator, P: Pool> Manager<S, R, A, P> {
    // `into` learns what each of these callers has seen, one after another.
    fn gather(&self, others: &mut [Caller<S, R>], into: &mut Caller<S, R>)
        requires others { AreAtRest R.is_local self.now.table others.old }
        requires into { IsAtRest R.is_local self.now.table into.old }
        ensures others { HaveMet R.is_local self.now.table others.old others.new }
        ensures into { HasMet R.is_local self.now.table into.old into.new }
        ensures gathered { HasGathered others.old into.new }
    {
        for other in others.iter_mut() {
            self.meet(other, into);
        }
    }

    // Each of these callers learns what `from` has seen.
    fn spread(&self, from: &mut Caller<S, R>, others: &mut [Caller<S, R>])
        requires from { IsAtRest R.is_local self.now.table from.old }
        requires others { AreAtRest R.is_local self.now.table others.old }
        ensures from { HasMet R.is_local self.now.table from.old from.new }
        ensures others { HaveMet R.is_local self.now.table others.old others.new }
        ensures learnt { HaveLearnt from.old others.new }
    {
        for other in others.iter_mut() {
            self.meet(from, other);
        }
    }

    /// Lets all callers meet: afterwards whatever any of them had seen comes before each later call of each.
    /// `callers` has every caller of this manager in order of number, and none is inside an operation.
    /// Nothing else that they know changes.
    ///
    /// Caller 0 meets each other one, in order of number, and learns what it has seen; then each learns it
    /// from caller 0. The call takes no memory and has no refusal.
    pub fn meet_all(&self, callers: &mut Vec<Caller<S, R>>)
        requires passes { AreAllPasses self.now.table (passes_of callers.old.items) }
        requires resting { All (IsResting R.is_local) callers.old.items }
        ensures passes { AreAllPasses self.now.table (passes_of callers.new.items) }
        ensures resting { All (IsResting R.is_local) callers.new.items }
        ensures met { HaveAllMet callers.old.items callers.new.items }
        ensures same { HaveMet R.is_local self.now.table callers.old.items callers.new.items }
    {
        let Some((first, others)) = callers.as_mut_slice().split_first_mut() else {
            return;
        };
        self.gather(others, first);
        self.spread(first, others);
    }
}
