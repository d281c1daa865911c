// A record is born at the present epoch, which is tried now and then.
ghost use Rattle.std.specs.Prelude.{◌≡◌, ◌<◌, ◌≤◌, ◌^◌, ◌++◌, List};
ghost use Rattle.record_memory.specs.declared.steps.Step.{Step};
ghost use Rattle.record_table.specs.Handles.{setup_of, view, IsPassOf, IsSamePass};
ghost use Rattle.guard_facts.specs.Announcing.{reading};
ghost use Rattle.ibr_facts.specs.Keeping.{ibr};
ghost use Rattle.reclaim_api.specs.Guarding.{IsInside};
ghost use Rattle.reclaim_api.specs.Frames.{LeavesRecords};
ghost use Rattle.reclaim_api.specs.Locals.{IsLocalOf, IsLocalBorn};
ghost use Rattle.reclaim_api.specs.Holds.{KeepsHeld};
ghost use Rattle.reclaim_ibr.specs.LocalParts.{IsLocal};
ghost use Rattle.reclaim_ibr.specs.Running.{Advances, Bears};

use crate::epochs::read_epoch;
use crate::{Ibr, Interval};
use record_memory::EPOCH;
use record_table::{Pass, Shape, Table};

// The last epoch, the greatest number that a word of 44 bits holds.
const LAST_EPOCH: u64 = 17_592_186_044_415;

// At one birth in so many the epoch is tried: that keeps few lives in one epoch, at one exchange in so many births.
const EACH: u8 = 16;

// Loads the epoch, and tries it once from there to the next one. Not at the last epoch.
fn advance<S: Shape>(table: &Table<S, Ibr>, pass: &mut Pass<S, Ibr>, local: &Interval)
    requires pass { IsPassOf table.now pass.old }
    requires local { IsLocalOf IsLocal local.now pass.old }
    ensures pass { IsSamePass pass.old pass.new }
    ensures local { IsLocalOf IsLocal local.now pass.new }
    ensures rest { LeavesRecords (view pass.old) (view pass.new) }
    ensures keeps { KeepsHeld pass.old pass.new }
    ensures rise { reading (view pass.old).own.guard 0 ≤ reading (view pass.new).own.guard 0 }
    ensures advanced { (made : List Step) × Advances (view pass.old).own made × ((view pass.new).own.steps ≡ (view pass.old).own.steps ++ made) }
{
    let epoch = read_epoch(table, pass, local);
    if epoch < LAST_EPOCH {
        let _outcome = table.exchange_control(pass, EPOCH, epoch, epoch + 1);
    }
}

// The birth of the record that becomes the caller's own next.
pub(crate) fn birth<S: Shape>(
    table: &Table<S, Ibr>,
    pass: &mut Pass<S, Ibr>,
    local: &mut Interval,
) -> u64
    requires pass { IsPassOf table.now pass.old }
    requires inside { IsInside pass.old }
    requires local { IsLocalOf IsLocal local.old pass.old }
    ensures pass { IsSamePass pass.old pass.new }
    ensures inside { IsInside pass.new }
    ensures local { IsLocalBorn IsLocal local.new pass.new }
    ensures rest { LeavesRecords (view pass.old) (view pass.new) }
    ensures keeps { KeepsHeld pass.old pass.new }
    ensures fits { result < 2 ^ 44 }
    ensures allowed { ibr.births (view pass.new).own.guard result }
    ensures does { Bears (setup_of table.now) (view pass.old).own result (view pass.new).own }
{
    let births = (local.births + 1) % EACH;
    if births == 0 {
        advance(table, pass, local);
    }
    let epoch = read_epoch(table, pass, local);
    local.births = births;
    epoch
}
