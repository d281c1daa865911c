// The calls of a list, with the root that each key has.
ghost use Rattle.std.specs.Prelude.{◌≤◌, All, IfSome};
ghost use Rattle.record_table.specs.Handles.{IsPassOf};
ghost use Rattle.record_table.specs.Closing.{AreAllPasses, IsWholePassOf};
ghost use Rattle.manager.specs.Callers.{IsResting};
ghost use Rattle.manager.specs.Made.{passes_of};
ghost use Rattle.reclaim_none.specs.Starting.{IsLocal};

use alloc_bump::Bump;
use manager::Caller;
use michael_list::{MichaelList, MichaelShape};
use pool::NoPool;
use reclaim_none::NoReclaim;
use set_model::{InsertAnswer, LookAnswer};

/// A list without reclamation.
pub type TestList = MichaelList<NoReclaim, Bump, NoPool>;

/// One of its callers.
pub type TestCaller = Caller<MichaelShape, NoReclaim>;

/// Inserts the key.
pub fn insert(list: &TestList, caller: &mut TestCaller, key: u64, budget: u32) -> InsertAnswer
    requires of { IsPassOf list.now.manager.table caller.old.pass }
    requires caller { IsResting IsLocal caller.old }
    requires key { key ≤ 1099511627773 }
    ensures of { IsPassOf list.now.manager.table caller.new.pass }
    ensures caller { IsResting IsLocal caller.new }
{
    let root = (key % u64::from(list.roots())) as u32;
    list.insert(caller, root, key, budget)
}

/// Removes the key.
pub fn remove(list: &TestList, caller: &mut TestCaller, key: u64, budget: u32) -> LookAnswer
    requires of { IsPassOf list.now.manager.table caller.old.pass }
    requires caller { IsResting IsLocal caller.old }
    requires key { key ≤ 1099511627773 }
    ensures of { IsPassOf list.now.manager.table caller.new.pass }
    ensures caller { IsResting IsLocal caller.new }
{
    let root = (key % u64::from(list.roots())) as u32;
    list.remove(caller, root, key, budget)
}

/// Searches for the key.
pub fn search(list: &TestList, caller: &mut TestCaller, key: u64, budget: u32) -> LookAnswer
    requires of { IsPassOf list.now.manager.table caller.old.pass }
    requires caller { IsResting IsLocal caller.old }
    requires key { key ≤ 1099511627773 }
    ensures of { IsPassOf list.now.manager.table caller.new.pass }
    ensures caller { IsResting IsLocal caller.new }
{
    let root = (key % u64::from(list.roots())) as u32;
    list.search(caller, root, key, budget)
}

// The last of these callers, where there is one, and the others still.
fn pop_caller(list: &TestList, callers: &mut Vec<TestCaller>) -> Option<TestCaller>
    requires passes { All (IsWholePassOf list.now.manager.table) (passes_of callers.old.items) }
    requires resting { All (IsResting IsLocal) callers.old.items }
    ensures passes { All (IsWholePassOf list.now.manager.table) (passes_of callers.new.items) }
    ensures resting { All (IsResting IsLocal) callers.new.items }
    ensures of { IfSome result (λ caller. IsPassOf list.now.manager.table caller.pass) }
    ensures caller { IfSome result (λ caller. IsResting IsLocal caller) }
{
    callers.pop()
}

/// The last of these callers, where there is one.
pub fn last_caller(list: &TestList, callers: &mut Vec<TestCaller>) -> Option<TestCaller>
    requires passes { AreAllPasses list.now.manager.table (passes_of callers.old.items) }
    requires resting { All (IsResting IsLocal) callers.old.items }
    ensures of { IfSome result (λ caller. IsPassOf list.now.manager.table caller.pass) }
    ensures caller { IfSome result (λ caller. IsResting IsLocal caller) }
{
    pop_caller(list, callers)
}

/// The last two of these callers, where there are as many: the last but one first.
pub fn last_two(list: &TestList, mut callers: Vec<TestCaller>) -> Option<(TestCaller, TestCaller)>
    requires passes { AreAllPasses list.now.manager.table (passes_of callers.items) }
    requires resting { All (IsResting IsLocal) callers.items }
    ensures of { IfSome result (λ pair. IsPassOf list.now.manager.table pair.0.pass × IsPassOf list.now.manager.table pair.1.pass) }
    ensures callers { IfSome result (λ pair. IsResting IsLocal pair.0 × IsResting IsLocal pair.1) }
{
    let last = pop_caller(list, &mut callers)?;
    let first = pop_caller(list, &mut callers)?;
    Some((first, last))
}
