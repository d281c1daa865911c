// The steps of two callers, cut into one another: each is inside one guard meanwhile.
ghost use Rattle.std.specs.Prelude.{◌≡◌, IfSome, All, MatchOption};
ghost use Rattle.record_table.specs.Handles.{setup_of, view, IsPassOf};
ghost use Rattle.record_table.specs.Closing.{AreAllPasses};
ghost use Rattle.reclaim_api.specs.Guarding.{IsSameCaller};
ghost use Rattle.record_rule.specs.HandingOut.{IsOwnOf};
ghost use Rattle.manager.specs.Callers.{IsResting};
ghost use Rattle.manager.specs.Guards.{IsAtWork};
ghost use Rattle.manager.specs.Made.{passes_of};
ghost use Rattle.set_calls.specs.Going.{IsSameGuard};
ghost use Rattle.michael_list.specs.Knowing.{IsSpot};
ghost use Rattle.list_tests.specs.Both.{AreBoth};
ghost use Rattle.reclaim_none.specs.Starting.{IsLocal};

use crate::playing::{TestCaller, TestList};
use alloc_bump::Bump;
use manager::Guard;
use michael_list::{MichaelShape, Spot, find, link_record, mark, place_absent, take_out};
use pool::NoPool;
use reclaim_none::NoReclaim;
use record_table::{Closed, Own};
use row_words::Generation;
use set_model::{Call, InsertAnswer, LookAnswer};
use std::alloc::Global;
use std::test::Fail;

type TestGuard<'a> = Guard<'a, MichaelShape, NoReclaim, Bump, NoPool>;

// The two callers of a list of one root that has no more.
fn both(list: &TestList, mut callers: Vec<TestCaller>) -> Option<(TestCaller, TestCaller)>
    requires passes { AreAllPasses list.now.manager.table (passes_of callers.items) }
    requires resting { All (IsResting IsLocal) callers.items }
    ensures both { IfSome result (λ pair. AreBoth list.now.manager.table pair.0 pair.1) }
{
    let one = callers.pop()?;
    let zero = callers.pop()?;
    if callers.is_empty() {
        Some((zero, one))
    } else {
        None
    }
}

// Ends the list.
fn close(alloc: Global, list: TestList, zero: TestCaller, one: TestCaller) -> Result<Closed, Fail>
    requires both { AreBoth list.manager.table zero one }
{
    let callers = Vec::from_array(alloc, [zero, one])?;
    Ok(list.close(callers))
}

// A word of the closed table, and 0 behind its end.
fn word(closed: &Closed, at: usize) -> u64 {
    match closed.words().get(at) {
        Some(word) => *word,
        None => 0,
    }
}

// Links the record where the walk ended, if the key was absent there, which decides the insertion of key 2.
// `Some`: it isn't linked.
fn link_there<'a>(guard: &mut TestGuard<'a>, spot: Option<Spot>, own: Own) -> Option<Own>
    requires at_work { IsAtWork guard.old }
    requires roots { (setup_of guard.old.manager.now.table).roots ≡ 1 }
    requires spot { MatchOption spot (Unit {0}) (λ spot. IsSpot guard.old.caller.now.pass 0 2 spot) }
    requires own { IsOwnOf (view guard.old.caller.now.pass) own }
    ensures at_work { IsAtWork guard.new }
    ensures same { IsSameGuard guard.old guard.new }
    ensures own { IfSome result (λ own. IsOwnOf (view guard.new.caller.now.pass) own) }
{
    let Some(spot) = spot else {
        return Some(own);
    };
    let Spot::Absent { before, next } = spot else {
        return Some(own);
    };
    match link_record(guard, 0, 2, before, next, own) {
        Ok(()) => None,
        Err(own) => Some(own),
    }
}

// Places the answer of a search for key 1 that found it absent. `false`: the walk saw it.
fn search_absent<'a>(guard: &mut TestGuard<'a>) -> bool
    requires at_work { IsAtWork guard.old }
    requires roots { (setup_of guard.old.manager.now.table).roots ≡ 1 }
    ensures at_work { IsAtWork guard.new }
    ensures same { IsSameGuard guard.old guard.new }
{
    let mut hops = 0;
    let Some(spot) = find(guard, 0, 1, 10, &mut hops) else {
        return false;
    };
    let Spot::Absent { before: _, next } = spot else {
        return false;
    };
    place_absent(guard, &next, Call::Search(1));
    true
}

// The same of a removal.
fn remove_absent<'a>(guard: &mut TestGuard<'a>) -> bool
    requires at_work { IsAtWork guard.old }
    requires roots { (setup_of guard.old.manager.now.table).roots ≡ 1 }
    ensures at_work { IsAtWork guard.new }
    ensures same { IsSameGuard guard.old guard.new }
{
    let mut hops = 0;
    let Some(spot) = find(guard, 0, 1, 10, &mut hops) else {
        return false;
    };
    let Spot::Absent { before: _, next } = spot else {
        return false;
    };
    place_absent(guard, &next, Call::Remove(1));
    true
}

// An insertion of key 2 around one of key 1: the first walk, the other caller's insertion, and the first linking; and, where
// that is refused, a second walk and linking. What the other one was answered, whether the first linking was refused, and
// whether key 2 was added.
fn insert_between<'a>(
    list: &TestList,
    guard: &mut TestGuard<'a>,
    one: &mut TestCaller,
    own: Own,
) -> (InsertAnswer, bool, bool)
    requires at_work { IsAtWork guard.old }
    requires roots { (setup_of guard.old.manager.now.table).roots ≡ 1 }
    requires list_roots { (setup_of list.now.manager.table).roots ≡ 1 }
    requires own { IsOwnOf (view guard.old.caller.now.pass) own }
    requires of { IsPassOf list.now.manager.table one.old.pass }
    requires one { IsResting IsLocal one.old }
    ensures at_work { IsAtWork guard.new }
    ensures same { IsSameGuard guard.old guard.new }
    ensures one { IsResting IsLocal one.new }
    ensures one_same { IsSameCaller one.old.pass one.new.pass }
{
    let mut hops = 0;
    let spot = find(guard, 0, 2, 10, &mut hops);
    let other = list.insert(one, 0, 1, 10);
    let Some(own) = link_there(guard, spot, own) else {
        return (other, false, true);
    };
    let mut more = 0;
    let spot = find(guard, 0, 2, 10, &mut more);
    let Some(own) = link_there(guard, spot, own) else {
        return (other, true, true);
    };
    guard.give_back(own);
    (other, true, false)
}

// The same as one operation. `None`: no record was left.
fn insert_around(
    list: &TestList,
    zero: &mut TestCaller,
    one: &mut TestCaller,
) -> Option<(InsertAnswer, bool, bool)>
    requires roots { (setup_of list.now.manager.table).roots ≡ 1 }
    requires both { AreBoth list.now.manager.table zero.old one.old }
    ensures both { AreBoth list.now.manager.table zero.new one.new }
{
    let mut guard = list.begin(zero);
    let Ok(own) = guard.fresh() else {
        guard.finish();
        return None;
    };
    let came = insert_between(list, &mut guard, one, own);
    guard.finish();
    Some(came)
}

// A removal of key 1 around another one: the walk, the other caller's removal, the first caller's mark, and its second walk,
// which finds the key absent. What the other one was answered, whether the mark went through, and whether the key was found
// absent. `None`: the first walk didn't find it.
fn remove_between<'a>(
    list: &TestList,
    guard: &mut TestGuard<'a>,
    one: &mut TestCaller,
) -> Option<(LookAnswer, bool, bool)>
    requires at_work { IsAtWork guard.old }
    requires roots { (setup_of guard.old.manager.now.table).roots ≡ 1 }
    requires list_roots { (setup_of list.now.manager.table).roots ≡ 1 }
    requires of { IsPassOf list.now.manager.table one.old.pass }
    requires one { IsResting IsLocal one.old }
    ensures at_work { IsAtWork guard.new }
    ensures same { IsSameGuard guard.old guard.new }
    ensures one { IsResting IsLocal one.new }
    ensures one_same { IsSameCaller one.old.pass one.new.pass }
{
    let mut hops = 0;
    let Some(spot) = find(guard, 0, 1, 10, &mut hops) else {
        return None;
    };
    let Spot::Present {
        before: _,
        at,
        link,
    } = spot
    else {
        return None;
    };
    let other = list.remove(one, 0, 1, 10);
    let marked = mark(guard, 0, 1, &at, link);
    let absent = remove_absent(guard);
    Some((other, marked, absent))
}

// The same as one operation.
fn remove_around(
    list: &TestList,
    zero: &mut TestCaller,
    one: &mut TestCaller,
) -> Option<(LookAnswer, bool, bool)>
    requires roots { (setup_of list.now.manager.table).roots ≡ 1 }
    requires both { AreBoth list.now.manager.table zero.old one.old }
    ensures both { AreBoth list.now.manager.table zero.new one.new }
{
    let mut guard = list.begin(zero);
    let came = remove_between(list, &mut guard, one);
    guard.finish();
    came
}

// A removal of key 1 that is held up behind its mark, while the other caller walks: whether the other one found the key
// absent, and whether the first one took its record out. `None`: it didn't mark it.
fn mark_between<'a, 'b>(
    guard: &mut TestGuard<'a>,
    other: &mut TestGuard<'b>,
) -> Option<(bool, bool)>
    requires at_work { IsAtWork guard.old × IsAtWork other.old }
    requires roots { ((setup_of guard.old.manager.now.table).roots ≡ 1) × ((setup_of other.old.manager.now.table).roots ≡ 1) }
    ensures at_work { IsAtWork guard.new }
    ensures other_at_work { IsAtWork other.new }
    ensures same { IsSameGuard guard.old guard.new }
    ensures other_same { IsSameGuard other.old other.new }
{
    let mut hops = 0;
    let Some(spot) = find(guard, 0, 1, 10, &mut hops) else {
        return None;
    };
    let Spot::Present { before, at, link } = spot else {
        return None;
    };
    if !mark(guard, 0, 1, &at, link) {
        return None;
    }
    let absent = search_absent(other);
    let taken = take_out(guard, &before, &at, link);
    Some((absent, taken))
}

// The same as one operation of each.
fn remove_helped(
    list: &TestList,
    zero: &mut TestCaller,
    one: &mut TestCaller,
) -> Option<(bool, bool)>
    requires roots { (setup_of list.now.manager.table).roots ≡ 1 }
    requires both { AreBoth list.now.manager.table zero.old one.old }
    ensures both { AreBoth list.now.manager.table zero.new one.new }
{
    let mut guard = list.begin(zero);
    let mut other = list.begin(one);
    let came = mark_between(&mut guard, &mut other);
    other.finish();
    guard.finish();
    came
}

// Inserts key 1, by the first caller.
fn insert_first(list: &TestList, zero: &mut TestCaller, one: &TestCaller) -> InsertAnswer
    requires roots { (setup_of list.now.manager.table).roots ≡ 1 }
    requires both { AreBoth list.now.manager.table zero.old one.now }
    ensures both { AreBoth list.now.manager.table zero.new one.now }
{
    list.insert(zero, 0, 1, 10)
}

#[test]
fn an_insertion_goes_on_behind_one_that_came_between(rt: HostRuntime) -> Result<(), Fail> {
    let first = Generation::new(7).ok_or("a generation")?;
    let (list, callers) = TestList::prepare(rt.alloc(), 3, 2, first, 1)?;
    let (mut zero, mut one) = both(&list, callers).ok_or("two callers")?;
    let came = insert_around(&list, &mut zero, &mut one);
    assert_eq!(rt; came, Some((InsertAnswer::Done(true), true, true)));
    let counts = list.counts(&zero);
    assert_eq!(rt; (counts.drawn, counts.spare, counts.retired), (1, 0, 0));
    let counts = list.counts(&one);
    assert_eq!(rt; (counts.drawn, counts.spare, counts.retired), (1, 0, 0));
    let closed = close(rt.alloc(), list, zero, one)?;
    let own = 7u64 << 44;
    // The root leads to the third record with key 1, and that to the second with key 2.
    assert_eq!(rt; word(&closed, 30 + 3), own + (7 << 20) + 3);
    assert_eq!(rt; word(&closed, 30 + 16 + 4), own + 1);
    assert_eq!(rt; word(&closed, 30 + 16 + 3), own + (7 << 20) + 2);
    assert_eq!(rt; word(&closed, 30 + 8 + 4), own + 2);
    assert_eq!(rt; word(&closed, 30 + 8 + 3), own);
    Ok(())
}

#[test]
fn a_removal_goes_on_behind_one_that_came_between(rt: HostRuntime) -> Result<(), Fail> {
    let first = Generation::new(7).ok_or("a generation")?;
    let (list, callers) = TestList::prepare(rt.alloc(), 2, 2, first, 1)?;
    let (mut zero, mut one) = both(&list, callers).ok_or("two callers")?;
    assert_eq!(rt;
        insert_first(&list, &mut zero, &one),
        InsertAnswer::Done(true)
    );
    let came = remove_around(&list, &mut zero, &mut one);
    assert_eq!(rt; came, Some((LookAnswer::Done(true), false, true)));
    let counts = list.counts(&zero);
    assert_eq!(rt; (counts.drawn, counts.retired, counts.limbo), (1, 0, 0));
    let counts = list.counts(&one);
    assert_eq!(rt; (counts.drawn, counts.retired, counts.limbo), (0, 1, 1));
    let closed = close(rt.alloc(), list, zero, one)?;
    let own = 7u64 << 44;
    // The root leads nowhere. The second record is retired, and its link keeps the mark.
    assert_eq!(rt; word(&closed, 30 + 3), own);
    assert_eq!(rt; word(&closed, 30 + 8 + 2), own);
    assert_eq!(rt; word(&closed, 30 + 8 + 3), own + (1 << 40));
    Ok(())
}

#[test]
fn a_walk_takes_out_what_another_one_marked(rt: HostRuntime) -> Result<(), Fail> {
    let first = Generation::new(7).ok_or("a generation")?;
    let (list, callers) = TestList::prepare(rt.alloc(), 2, 2, first, 1)?;
    let (mut zero, mut one) = both(&list, callers).ok_or("two callers")?;
    assert_eq!(rt;
        insert_first(&list, &mut zero, &one),
        InsertAnswer::Done(true)
    );
    let came = remove_helped(&list, &mut zero, &mut one);
    assert_eq!(rt; came, Some((true, false)));
    // Who took the record out retired it, and who marked it didn't.
    let counts = list.counts(&zero);
    assert_eq!(rt; (counts.drawn, counts.retired, counts.limbo), (1, 0, 0));
    let counts = list.counts(&one);
    assert_eq!(rt; (counts.drawn, counts.retired, counts.limbo), (0, 1, 1));
    let closed = close(rt.alloc(), list, zero, one)?;
    let own = 7u64 << 44;
    assert_eq!(rt; word(&closed, 30 + 3), own);
    assert_eq!(rt; word(&closed, 30 + 8 + 2), own);
    assert_eq!(rt; word(&closed, 30 + 8 + 3), own + (1 << 40));
    Ok(())
}
