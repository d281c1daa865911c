// The epoch is loaded.
ghost use Rattle.std.specs.Prelude.{◌≡◌, []};
ghost use Rattle.record_table.specs.Handles.{view, IsPassOf, IsSamePass};
ghost use Rattle.reclaim_api.specs.Frames.{LeavesRecords};
ghost use Rattle.reclaim_api.specs.Locals.{IsLocalOf};
ghost use Rattle.reclaim_api.specs.Holds.{KeepsHeld};
ghost use Rattle.reclaim_ibr.specs.LocalParts.{IsLocal};
ghost use Rattle.reclaim_ibr.specs.Steps.{HasLoadedEpoch, HasRead};

use crate::{Ibr, Interval};
use record_memory::EPOCH;
use record_table::{Pass, Shape, Table};

// Loads the epoch while no scan is on: what waits is held where the epoch is the upper end.
pub(crate) fn load_epoch<S: Shape>(table: &Table<S, Ibr>, pass: &mut Pass<S, Ibr>) -> u64
    requires pass { IsPassOf table.now pass.old }
    requires calm { (view pass.old).own.guard.loaded ≡ [] }
    ensures pass { IsSamePass pass.old pass.new }
    ensures loaded { HasLoadedEpoch (view pass.old) result (view pass.new) }
{
    table.load_control(pass, EPOCH)
}

// Loads the epoch between tries to hold: what is held stays so.
pub(crate) fn read_epoch<S: Shape>(
    table: &Table<S, Ibr>,
    pass: &mut Pass<S, Ibr>,
    local: &Interval,
) -> u64
    requires pass { IsPassOf table.now pass.old }
    requires local { IsLocalOf IsLocal local.now pass.old }
    ensures pass { IsSamePass pass.old pass.new }
    ensures local { IsLocalOf IsLocal local.now pass.new }
    ensures rest { LeavesRecords (view pass.old) (view pass.new) }
    ensures keeps { KeepsHeld pass.old pass.new }
    ensures read { HasRead (view pass.old) result (view pass.new) }
{
    load_epoch(table, pass)
}
