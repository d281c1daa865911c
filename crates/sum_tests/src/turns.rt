// Callers play in turn, meet, and close their set.
ghost use Rattle.std.specs.Prelude.{All};
ghost use Rattle.record_table.specs.Closing.{AreAllPasses};
ghost use Rattle.reclaim_api.specs.Guarding.{IsSameCaller};
ghost use Rattle.record_table.specs.Handles.{IsPassOf};
ghost use Rattle.manager.specs.Callers.{IsResting};
ghost use Rattle.manager.specs.Made.{passes_of};
ghost use Rattle.reclaim_none.specs.Starting.{IsLocal};

use closed_lists::show_lists;
use key_sums::size_and_sum;
use list_tests::{TestCaller, TestList};
use michael_list::MichaelShape;
use reclaim_none::NoReclaim;
use set_model::{Call, InsertAnswer, LookAnswer, Reply};

// The greatest key that a list takes.
const MOST_KEY: u64 = 1_099_511_627_773;

fn inserted(answer: InsertAnswer) -> Reply {
    match answer {
        InsertAnswer::Done(yes) => Reply::from(yes),
        InsertAnswer::Full { found: _ } | InsertAnswer::Again { hops: _ } => Reply::Full,
    }
}

fn looked(answer: LookAnswer) -> Reply {
    match answer {
        LookAnswer::Done(yes) => Reply::from(yes),
        LookAnswer::Again { hops: _ } => Reply::Full,
    }
}

/// Makes the call, with hops without number. A key that is too great is answered `Full`.
pub fn play_call(list: &TestList, caller: &mut TestCaller, call: Call) -> Reply
    requires of { IsPassOf list.now.manager.table caller.old.pass }
    requires caller { IsResting IsLocal caller.old }
    ensures of { IsPassOf list.now.manager.table caller.new.pass }
    ensures caller { IsResting IsLocal caller.new }
    ensures same { IsSameCaller caller.old.pass caller.new.pass }
{
    let (Call::Insert(key) | Call::Remove(key) | Call::Search(key)) = call;
    if key > MOST_KEY {
        return Reply::Full;
    }
    let root = (key % u64::from(list.roots())) as u32;
    match call {
        Call::Insert(_) => inserted(list.insert(caller, root, key, u32::MAX)),
        Call::Remove(_) => looked(list.remove(caller, root, key, u32::MAX)),
        Call::Search(_) => looked(list.search(caller, root, key, u32::MAX)),
    }
}

/// Plays the calls, each by the caller who is next in turn. Answers whether all replies are the expected ones.
pub fn play_in_turn(
    list: &TestList,
    callers: &mut Vec<TestCaller>,
    calls: &[Call],
    expected: &[Reply],
) -> bool
    requires passes { AreAllPasses list.now.manager.table (passes_of callers.old.items) }
    requires resting { All (IsResting IsLocal) callers.old.items }
    ensures passes { AreAllPasses list.now.manager.table (passes_of callers.new.items) }
    ensures resting { All (IsResting IsLocal) callers.new.items }
{
    let mut turn = 0;
    let mut same = true;
    for (call, reply) in calls.iter().zip(expected) {
        if turn >= callers.len() {
            turn = 0;
        }
        if turn < callers.len() {
            same &= play_call(list, &mut callers[turn], *call) == *reply;
            turn += 1;
        }
    }
    same
}

/// All callers meet, and the set is closed: how many keys it has, and their sum.
pub fn close_sums(list: TestList, mut callers: Vec<TestCaller>) -> (u64, u64)
    requires passes { AreAllPasses list.manager.table (passes_of callers.items) }
    requires resting { All (IsResting IsLocal) callers.items }
{
    list.meet_all(&mut callers);
    let closed = list.close(callers);
    show_lists::<MichaelShape, NoReclaim>(&closed);
    size_and_sum(&closed)
}
