// A record manager at Michael's list, without reclamation.
ghost use Rattle.std.specs.Prelude.{All, IfSome};
ghost use Rattle.record_table.specs.Handles.{IsPassOf};
ghost use Rattle.record_table.specs.Closing.{AreAllPasses};
ghost use Rattle.manager.specs.Callers.{IsResting};
ghost use Rattle.manager.specs.Made.{passes_of};
ghost use Rattle.reclaim_none.specs.Starting.{IsLocal};

use crate::types::MichaelShape;
use alloc_api::NoRecord;
use alloc_bump::Bump;
use manager::{Caller, Manager};
use pool::NoPool;
use reclaim_none::NoReclaim;
use row_words::{Generation, Ref};
use std::test::Fail;

pub(crate) type ListManager = Manager<MichaelShape, NoReclaim, Bump, NoPool>;

type ListCaller = Caller<MichaelShape, NoReclaim>;

// Takes a record and gives it back, in one operation.
fn try_record(manager: &ListManager, caller: &mut ListCaller) -> Result<Ref, NoRecord>
    requires of { IsPassOf manager.now.table caller.old.pass }
    requires caller { IsResting IsLocal caller.old }
    ensures of { IsPassOf manager.now.table caller.new.pass }
    ensures caller { IsResting IsLocal caller.new }
{
    let mut guard = manager.begin(caller);
    let answer = match guard.fresh() {
        Ok(own) => {
            let record = own.reference();
            guard.give_back(own);
            Ok(record)
        }
        Err(none) => Err(none),
    };
    guard.finish();
    answer
}

// The last of these callers, where there is one.
fn last_caller(manager: &ListManager, callers: &mut Vec<ListCaller>) -> Option<ListCaller>
    requires passes { AreAllPasses manager.now.table (passes_of callers.old.items) }
    requires resting { All (IsResting IsLocal) callers.old.items }
    ensures of { IfSome result (λ caller. IsPassOf manager.now.table caller.pass) }
    ensures caller { IfSome result (λ caller. IsResting IsLocal caller) }
{
    callers.pop()
}

#[test]
fn takes_a_spare_record_first(rt: HostRuntime) -> Result<(), Fail> {
    let first = Generation::new(7).ok_or("a generation")?;
    let (manager, mut callers) = ListManager::prepare(rt.alloc(), 3, 1, first, 1)?;
    let mut caller = last_caller(&manager, &mut callers).ok_or("a caller")?;
    let drawn = try_record(&manager, &mut caller);
    let again = try_record(&manager, &mut caller);
    // The record that was given back is taken again, at its generation, and no second one is drawn.
    assert_eq!(rt; drawn, Ok(Ref::new(2, first)));
    assert_eq!(rt; again, Ok(Ref::new(2, first)));
    let counts = manager.counts(&caller);
    assert_eq!(rt; (counts.drawn, counts.spare, counts.free), (1, 1, 0));
    Ok(())
}

#[test]
fn has_no_record_but_the_root(rt: HostRuntime) -> Result<(), Fail> {
    let first = Generation::new(7).ok_or("a generation")?;
    let (manager, mut callers) = ListManager::prepare(rt.alloc(), 1, 1, first, 1)?;
    let mut caller = last_caller(&manager, &mut callers).ok_or("a caller")?;
    assert_eq!(rt;
        try_record(&manager, &mut caller),
        Err(NoRecord { found: 1 })
    );
    Ok(())
}
