// The set without reclamation.
ghost use Rattle.std.specs.Prelude.{◌<◌, All, IfSome};
ghost use Rattle.record_table.specs.Handles.{setup_of, IsPassOf};
ghost use Rattle.record_table.specs.Closing.{AreAllPasses};
ghost use Rattle.manager.specs.Callers.{IsResting};
ghost use Rattle.manager.specs.Made.{passes_of};
ghost use Rattle.reclaim_none.specs.Starting.{IsLocal};

use crate::answers::Added;
use crate::calls::{insert, remove, search};
use crate::shape::OneKeyShape;
use alloc_bump::Bump;
use manager::{Caller, Manager};
use pool::NoPool;
use reclaim_none::NoReclaim;
use row_words::Generation;
use std::test::Fail;

type KeyManager = Manager<OneKeyShape, NoReclaim, Bump, NoPool>;

type KeyCaller = Caller<OneKeyShape, NoReclaim>;

// The last of these callers, where there is one.
fn last_caller(manager: &KeyManager, callers: &mut Vec<KeyCaller>) -> Option<KeyCaller>
    requires passes { AreAllPasses manager.now.table (passes_of callers.old.items) }
    requires resting { All (IsResting IsLocal) callers.old.items }
    ensures of { IfSome result (λ caller. IsPassOf manager.now.table caller.pass) }
    ensures caller { IfSome result (λ caller. IsResting IsLocal caller) }
{
    callers.pop()
}

// Each of these is one operation.
fn add(manager: &KeyManager, caller: &mut KeyCaller, key: u32, tries: u32) -> Added
    requires of { IsPassOf manager.now.table caller.old.pass }
    requires caller { IsResting IsLocal caller.old }
    requires key { key < (setup_of manager.now.table).roots }
    ensures of { IsPassOf manager.now.table caller.new.pass }
    ensures caller { IsResting IsLocal caller.new }
{
    let mut guard = manager.begin(caller);
    let answer = insert(&mut guard, key, tries);
    guard.finish();
    answer
}

fn take(manager: &KeyManager, caller: &mut KeyCaller, key: u32) -> Option<bool>
    requires of { IsPassOf manager.now.table caller.old.pass }
    requires caller { IsResting IsLocal caller.old }
    requires key { key < (setup_of manager.now.table).roots }
    ensures of { IsPassOf manager.now.table caller.new.pass }
    ensures caller { IsResting IsLocal caller.new }
{
    let mut guard = manager.begin(caller);
    let answer = remove(&mut guard, key, 1);
    guard.finish();
    answer
}

fn look_for(manager: &KeyManager, caller: &mut KeyCaller, key: u32) -> Option<bool>
    requires of { IsPassOf manager.now.table caller.old.pass }
    requires caller { IsResting IsLocal caller.old }
    requires key { key < (setup_of manager.now.table).roots }
    ensures of { IsPassOf manager.now.table caller.new.pass }
    ensures caller { IsResting IsLocal caller.new }
{
    let mut guard = manager.begin(caller);
    let answer = search(&mut guard, key, 1);
    guard.finish();
    answer
}

#[test]
fn adds_a_key_once(rt: HostRuntime) -> Result<(), Fail> {
    let first = Generation::new(7).ok_or("a generation")?;
    let (manager, mut callers) = KeyManager::prepare(rt.alloc(), 4, 1, first, 2)?;
    let mut caller = last_caller(&manager, &mut callers).ok_or("a caller")?;
    assert_eq!(rt; add(&manager, &mut caller, 1, 1), Added::Done(true));
    assert_eq!(rt; add(&manager, &mut caller, 1, 1), Added::Done(false));
    assert_eq!(rt; look_for(&manager, &mut caller, 1), Some(true));
    // The other root has a key of its own.
    assert_eq!(rt; look_for(&manager, &mut caller, 0), Some(false));
    Ok(())
}

#[test]
fn removes_a_key_once(rt: HostRuntime) -> Result<(), Fail> {
    let first = Generation::new(7).ok_or("a generation")?;
    let (manager, mut callers) = KeyManager::prepare(rt.alloc(), 4, 1, first, 2)?;
    let mut caller = last_caller(&manager, &mut callers).ok_or("a caller")?;
    assert_eq!(rt; add(&manager, &mut caller, 1, 1), Added::Done(true));
    assert_eq!(rt; take(&manager, &mut caller, 1), Some(true));
    assert_eq!(rt; take(&manager, &mut caller, 1), Some(false));
    assert_eq!(rt; look_for(&manager, &mut caller, 1), Some(false));
    Ok(())
}

#[test]
fn has_no_second_record(rt: HostRuntime) -> Result<(), Fail> {
    let first = Generation::new(7).ok_or("a generation")?;
    let (manager, mut callers) = KeyManager::prepare(rt.alloc(), 3, 1, first, 2)?;
    let mut caller = last_caller(&manager, &mut callers).ok_or("a caller")?;
    // A call that has no try says so.
    assert_eq!(rt; add(&manager, &mut caller, 0, 0), Added::Again);
    assert_eq!(rt; add(&manager, &mut caller, 0, 1), Added::Done(true));
    assert_eq!(rt; take(&manager, &mut caller, 0), Some(true));
    // Without reclamation the record that was taken out isn't handed out again.
    assert_eq!(rt; add(&manager, &mut caller, 1, 1), Added::Full { found: 3 });
    Ok(())
}
