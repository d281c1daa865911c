// Calls of a table whose records are reclaimed, and what the first bucket leads to.
ghost use Rattle.std.specs.Prelude.{◌≡◌, ◌≤◌, All, IfSome};
ghost use Rattle.record_table.specs.Closing.{AreAllPasses};
ghost use Rattle.record_table.specs.Handles.{view};
ghost use Rattle.manager.specs.Callers.{IsResting};
ghost use Rattle.manager.specs.Made.{passes_of};
ghost use Rattle.set_model.specs.Machine.{key_of};
ghost use Rattle.michael_hash.specs.Callers.{IsWholeCallerOf};
ghost use Rattle.hash_tests.specs.Only.{IsOnlyCallerOf};

use alloc_bump::Bump;
use manager::Caller;
use michael_hash::MichaelHash;
use michael_list::MichaelShape;
use pool::NoPool;
use reclaim_api::{Holding, Scheme};
use record_table::Node;
use row_words::Ref;
use set_api::{Answer, ConcurrentSet};
use set_model::Call;

// The caller of a table that has no more.
pub(crate) fn only<R: Scheme>(
    hash: &MichaelHash<R, Bump, NoPool>,
    mut callers: Vec<Caller<MichaelShape, R>>,
) -> Option<Caller<MichaelShape, R>>
    requires passes { AreAllPasses hash.now.lists.manager.table (passes_of callers.items) }
    requires resting { All (IsResting R.is_local) callers.items }
    ensures only { IfSome result (λ caller. IsOnlyCallerOf R.is_local hash.now.lists.manager.table caller) }
{
    let caller = callers.pop()?;
    if callers.is_empty() {
        Some(caller)
    } else {
        None
    }
}

// The last of these callers, where there is one, and the others still.
pub(crate) fn take<R: Scheme>(
    hash: &MichaelHash<R, Bump, NoPool>,
    callers: &mut Vec<Caller<MichaelShape, R>>,
) -> Option<Caller<MichaelShape, R>>
    requires all { All (IsWholeCallerOf R.is_local hash.now.lists.manager.table) callers.old.items }
    ensures rest { All (IsWholeCallerOf R.is_local hash.now.lists.manager.table) callers.new.items }
    ensures taken { IfSome result (IsWholeCallerOf R.is_local hash.now.lists.manager.table) }
{
    callers.pop()
}

// Makes the call, within ten hops.
pub(crate) fn play<R: Scheme>(
    hash: &MichaelHash<R, Bump, NoPool>,
    caller: &mut Caller<MichaelShape, R>,
    call: Call,
) -> Answer
    requires caller { IsWholeCallerOf R.is_local hash.now.lists.manager.table caller.old }
    requires key { key_of call ≤ 1099511627773 }
    ensures caller { IsWholeCallerOf R.is_local hash.now.lists.manager.table caller.new }
    ensures same { (view caller.new.pass).own.caller ≡ (view caller.old.pass).own.caller }
{
    hash.play(caller, call, 10)
}

// Makes these calls, one after another, until one is answered otherwise than told here.
pub(crate) fn are_told<R: Scheme>(
    hash: &MichaelHash<R, Bump, NoPool>,
    caller: &mut Caller<MichaelShape, R>,
    calls: &[(Call, Answer)],
) -> bool
    requires caller { IsWholeCallerOf R.is_local hash.now.lists.manager.table caller.old }
    requires keys { All (λ told. key_of told.0 ≤ 1099511627773) calls.now }
    ensures { IsWholeCallerOf R.is_local hash.now.lists.manager.table caller.new }
{
    for (call, told) in calls {
        if play(hash, caller, *call) != *told {
            return false;
        }
    }
    true
}

// Adds the keys from the first to the last one and takes each away before the next: whether all of this was done.
pub(crate) fn come_and_go<R: Scheme>(
    hash: &MichaelHash<R, Bump, NoPool>,
    caller: &mut Caller<MichaelShape, R>,
    first: u64,
    last: u64,
) -> bool
    requires caller { IsWholeCallerOf R.is_local hash.now.lists.manager.table caller.old }
    requires keys { last ≤ 1099511627773 }
    ensures caller { IsWholeCallerOf R.is_local hash.now.lists.manager.table caller.new }
    ensures same { (view caller.new.pass).own.caller ≡ (view caller.old.pass).own.caller }
{
    for key in first..last + 1 {
        if play(hash, caller, Call::Insert(key)) != Answer::Done(true) {
            return false;
        }
        if play(hash, caller, Call::Remove(key)) != Answer::Done(true) {
            return false;
        }
    }
    true
}

// What the link of the first bucket leads to, by a guard of this caller's that holds it.
pub(crate) fn first_record<R: Scheme>(
    hash: &MichaelHash<R, Bump, NoPool>,
    caller: &mut Caller<MichaelShape, R>,
) -> Option<Ref>
    requires caller { IsWholeCallerOf R.is_local hash.now.lists.manager.table caller.old }
    ensures { IsWholeCallerOf R.is_local hash.now.lists.manager.table caller.new }
{
    let mut guard = hash.begin(caller);
    let first = match guard.hold(0, Node::Root(0), 3) {
        Holding::Held(held) => Some(held.target),
        _ => None,
    };
    guard.finish();
    first
}
