// How all callers learn what each of them has seen.
ghost use Rattle.std.specs.Prelude.{All};
ghost use Rattle.record_table.specs.Closing.{AreAllPasses};
ghost use Rattle.manager.specs.Callers.{IsResting};
ghost use Rattle.manager.specs.Made.{passes_of};
ghost use Rattle.manager.specs.Meeting.{HaveMet, HaveAllMet};

use crate::list::MichaelList;
use crate::shape::MichaelShape;
use alloc_api::Allocator;
use manager::Caller;
use pool::Pool;
use reclaim_api::Scheme;

impl<R: Scheme, A: Allocator, P: Pool> MichaelList<R, A, P> {
    /// Lets all callers meet: afterwards whatever any of them had seen comes before each later call of each.
    /// `callers` has every caller of this set in order of number, and none is inside an operation. Nothing
    /// else that they know changes. The call takes no memory and has no refusal.
    pub fn meet_all(&self, callers: &mut Vec<Caller<MichaelShape, R>>)
        requires passes { AreAllPasses self.now.manager.table (passes_of callers.old.items) }
        requires resting { All (IsResting R.is_local) callers.old.items }
        ensures passes { AreAllPasses self.now.manager.table (passes_of callers.new.items) }
        ensures resting { All (IsResting R.is_local) callers.new.items }
        ensures met { HaveAllMet callers.old.items callers.new.items }
        ensures same { HaveMet R.is_local self.now.manager.table callers.old.items callers.new.items }
    {
        self.manager.meet_all(callers);
    }
}
