// A caller enters by announcing an interval, raises its upper end, and leaves by clearing the lower end.
ghost use Rattle.std.specs.Prelude.{◌≡◌, ◌<◌, ℕ, false};
ghost use Rattle.record_memory.specs.declared.books.Standing.TheVariants.{Free};
ghost use Rattle.record_rule.specs.ControlSteps.{StoredWord};
ghost use Rattle.record_table.specs.Handles.{setup_of, view, is_inside, IsPassOf, IsSamePass};
ghost use Rattle.guard_facts.specs.Announcing.{reading};
ghost use Rattle.ibr_facts.specs.Keeping.{ibr, IbrMayStore};
ghost use Rattle.reclaim_api.specs.Chained.{IsChainOf};
ghost use Rattle.reclaim_api.specs.Guarding.{IsInside, Enters as EntersGuard, Leaves as LeavesGuard};
ghost use Rattle.reclaim_api.specs.Frames.{FreesInto, LeavesRest, LeavesRecords};
ghost use Rattle.reclaim_api.specs.Locals.{IsLocalOf};
ghost use Rattle.reclaim_ibr.specs.LocalParts.{IsLocal};
ghost use Rattle.reclaim_ibr.specs.Running.{Enters, Leaves};
ghost use Rattle.reclaim_ibr.specs.Steps.{upper_stored};

use crate::epochs::load_epoch;
use crate::{Ibr, Interval};
use reclaim_api::NONE_FREED;
use record_memory::announcement;
use record_table::{Pass, Shape, Table};
use row_words::{Chain, Freed};

// The words of the two ends.
const LOWER: u32 = 0;

const UPPER: u32 = 1;

// Stores an end of its caller's interval.
fn store_end<S: Shape>(table: &Table<S, Ibr>, pass: &mut Pass<S, Ibr>, end: u32, value: u64)
    requires pass { IsPassOf table.now pass.old }
    requires counted { (view pass.old).own.caller < (view pass.old).setup.callers }
    requires end { end < 2 }
    requires allowed { IbrMayStore (view pass.old).setup (view pass.old).own.guard end value }
    ensures pass { IsSamePass pass.old pass.new }
    ensures stored { (found : ℕ) × StoredWord ibr (view pass.old) end value found (view pass.new) }
{
    // There are at most 64 callers, so the word's number is in range.
    let _few = table.callers();
    table.store_control(pass, announcement(pass.caller(), end), value);
}

// Stores the epoch that was loaded last as the upper end. Nothing waits then.
pub(crate) fn raise<S: Shape>(
    table: &Table<S, Ibr>,
    pass: &mut Pass<S, Ibr>,
    local: &mut Interval,
    epoch: u64,
)
    requires pass { IsPassOf table.now pass.old }
    requires counted { (view pass.old).own.caller < (view pass.old).setup.callers }
    requires last { epoch ≡ reading (view pass.old).own.guard 0 }
    ensures pass { IsSamePass pass.old pass.new }
    ensures local { local.new ≡ record local.old { upper = epoch } }
    ensures stored { (found : ℕ) × (view pass.new ≡ upper_stored (view pass.old) epoch found) }
{
    store_end(table, pass, UPPER, epoch);
    local.upper = epoch;
}

// The caller begins an operation: the present epoch is its interval. The upper end is stored first.
pub(crate) fn enter<S: Shape>(
    table: &Table<S, Ibr>,
    pass: &mut Pass<S, Ibr>,
    local: &mut Interval,
    free: &Chain,
) -> Freed
    requires pass { IsPassOf table.now pass.old }
    requires outside { is_inside pass.old ≡ false }
    requires local { IsLocalOf IsLocal local.old pass.old }
    requires free { IsChainOf Free (view pass.old) free.now }
    ensures pass { EntersGuard pass.old pass.new }
    ensures local { IsLocalOf IsLocal local.new pass.new }
    ensures free { IsChainOf Free (view pass.new) free.now }
    ensures frees { FreesInto (view pass.old) free.now result (view pass.new) free.now }
    ensures rest { LeavesRest (view pass.old) (view pass.new) }
    ensures does { Enters (setup_of table.now) (view pass.old).own result (view pass.new).own }
{
    pass.begin_guard();
    let epoch = load_epoch(table, pass);
    raise(table, pass, local, epoch);
    store_end(table, pass, LOWER, epoch);
    NONE_FREED
}

// The caller ends its operation: it has no lower end, and holds nothing.
pub(crate) fn leave<S: Shape>(table: &Table<S, Ibr>, pass: &mut Pass<S, Ibr>, local: &Interval)
    requires pass { IsPassOf table.now pass.old }
    requires inside { IsInside pass.old }
    requires local { IsLocalOf IsLocal local.now pass.old }
    ensures pass { LeavesGuard pass.old pass.new }
    ensures local { IsLocalOf IsLocal local.now pass.new }
    ensures rest { LeavesRecords (view pass.old) (view pass.new) }
    ensures does { Leaves (setup_of table.now) (view pass.old).own (view pass.new).own }
{
    store_end(table, pass, LOWER, 0);
    pass.end_guard();
}
