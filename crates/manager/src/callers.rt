// A caller begins and ends operations, and tries to hold records.
ghost use Rattle.std.specs.Prelude.{◌≡◌, ◌<◌, []};
ghost use Rattle.record_memory.specs.declared.books.Book.{Book};
ghost use Rattle.row_words.specs.declared.links.Freed.{Freed};
ghost use Rattle.record_rule.specs.Links.{near_of};
ghost use Rattle.record_table.specs.Handles.{setup_of, view, IsPassOf, IsSamePass};
ghost use Rattle.record_table.specs.Nodes.{origin, HoldsNode};
ghost use Rattle.reclaim_api.specs.Guarding.{Enters, Leaves};
ghost use Rattle.reclaim_api.specs.Frames.{LeavesRest, LeavesRecords};
ghost use Rattle.reclaim_api.specs.Holds.{IsElsewhere, HasReached, KeepsElse};
ghost use Rattle.record_pieces.specs.Events.{KeepsStock};
ghost use Rattle.record_pieces.specs.Giving.{GivesChains};
ghost use Rattle.manager.specs.Manners.{gives_by};
ghost use Rattle.manager.specs.Callers.{IsWorking, IsResting};

use crate::counting::raised;
use crate::giving::give_chains;
use crate::types::Caller;
use pool::Pool;
use reclaim_api::{Holding, Scheme};
use record_table::{Node, Shape, Table};

// What left limbo is free, and goes to the pool where it is much.
pub(crate) fn enter<S: Shape, R: Scheme, P: Pool>(table: &Table<S, R>, caller: &mut Caller<S, R>)
    requires of { IsPassOf table.now caller.old.pass }
    requires caller { IsResting R.is_local caller.old }
    ensures of { IsPassOf table.now caller.new.pass }
    ensures caller { IsWorking R.is_local caller.new }
    ensures pass { Enters caller.old.pass caller.new.pass }
    ensures rest { LeavesRest (view caller.old.pass) (view caller.new.pass) }
    ensures stock { KeepsStock (view caller.old.pass).own (view caller.new.pass).own }
    ensures does { (d : Book) × (f : Freed) × R.enters (setup_of table.now) (view caller.old.pass).own f d × GivesChains P.SHELVES (gives_by P.SHELVES P.busy (setup_of table.now)) f d (view caller.new.pass).own }
{
    let left = R::enter(table, &mut caller.pass, &mut caller.local, &mut caller.free);
    caller.moved.freed = raised(caller.moved.freed, left.freed);
    caller.moved.spent = raised(caller.moved.spent, left.spent);
    give_chains::<S, R, P>(table, caller, left);
}

pub(crate) fn leave<S: Shape, R: Scheme>(table: &Table<S, R>, caller: &mut Caller<S, R>)
    requires of { IsPassOf table.now caller.old.pass }
    requires caller { IsWorking R.is_local caller.old }
    requires unlocked { (view caller.old.pass).own.locks ≡ [] }
    ensures of { IsPassOf table.now caller.new.pass }
    ensures caller { IsResting R.is_local caller.new }
    ensures pass { Leaves caller.old.pass caller.new.pass }
    ensures rest { LeavesRecords (view caller.old.pass) (view caller.new.pass) }
    ensures does { R.leaves (setup_of table.now) (view caller.old.pass).own (view caller.new.pass).own }
{
    R::leave(table, &mut caller.pass, &mut caller.local);
}

pub(crate) fn reach<S: Shape, R: Scheme>(
    table: &Table<S, R>,
    caller: &mut Caller<S, R>,
    place: u32,
    from: Node,
    field: u8,
) -> Holding
    requires of { IsPassOf table.now caller.old.pass }
    requires caller { IsWorking R.is_local caller.old }
    requires place { place < R.PLACES }
    requires from { HoldsNode caller.old.pass from }
    requires elsewhere { IsElsewhere (origin from) place }
    requires field { field ≡ 3 }
    requires link { S.facts.may_hold (near_of (view caller.old.pass) (origin from)) 3 }
    ensures of { IsPassOf table.now caller.new.pass }
    ensures caller { IsWorking R.is_local caller.new }
    ensures pass { IsSamePass caller.old.pass caller.new.pass }
    ensures rest { LeavesRecords (view caller.old.pass) (view caller.new.pass) }
    ensures reached { HasReached S.facts place (origin from) caller.old.pass result caller.new.pass }
    ensures keeps { KeepsElse place caller.old.pass caller.new.pass }
    ensures does { R.reaches (setup_of table.now) place from field (view caller.old.pass).own result (view caller.new.pass).own }
{
    R::reach(
        table,
        &mut caller.pass,
        &mut caller.local,
        place,
        from,
        field,
    )
}
