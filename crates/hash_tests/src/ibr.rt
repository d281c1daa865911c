// Records that 2GEIBR frees, or doesn't: those whose lives meet the interval of a caller, its own or another one's.
ghost use Rattle.std.specs.Prelude.{◌<◌};
ghost use Rattle.michael_hash.specs.Callers.{IsWholeCallerOf};

use crate::holding::{Kept, hold_while_keys_go};
use crate::reclaimed::{are_told, come_and_go, only, play, take};
use alloc_bump::Bump;
use manager::Caller;
use michael_hash::MichaelHash;
use michael_list::MichaelShape;
use pool::NoPool;
use reclaim_api::{Holding, Scheme};
use reclaim_ibr::Ibr;
use record_memory::{BIRTH, STAMP, field_of};
use record_table::{Closed, Held, Node};
use row_words::{Generation, Ref, number_of};
use set_api::{Answer, ConcurrentSet};
use set_model::{Call, Counts};
use std::test::Fail;

type IbrHash = MichaelHash<Ibr, Bump, NoPool>;

// The epochs at which the record with this index was born and retired, by its words.
fn life_of(closed: &Closed, index: u32) -> Option<(u64, u64)>
    requires { 0 < index }
{
    let words = closed.words();
    let birth = words.get(field_of(closed.callers(), index, BIRTH))?;
    let stamp = words.get(field_of(closed.callers(), index, STAMP))?;
    Some((number_of(*birth), number_of(*stamp)))
}

// The sixteenth birth tries the epoch and is answered the next one. So fifteen records lived in epoch 1 alone, and the
// sixteenth in epoch 2 alone, which is the interval of the caller that retires it and scans.
#[test]
fn a_life_in_the_callers_own_interval_stays(rt: HostRuntime) -> Result<(), Fail> {
    let first = Generation::new(1).ok_or("one")?;
    let (hash, callers) = IbrHash::prepare(rt.alloc(), 17, 1, first, 1)?;
    let mut caller = only(&hash, callers).ok_or("one caller")?;
    assert!(rt; come_and_go(&hash, &mut caller, 1, 16));
    let counts = Counts {
        drawn: 16,
        reused: 0,
        retired: 16,
        freed: 15,
        limbo: 1,
        free: 15,
        spare: 0,
        spent: 0,
    };
    assert_eq!(rt; hash.counts(&caller), counts);
    let callers = Vec::from_array(rt.alloc(), [caller])?;
    let closed = ConcurrentSet::close(hash, callers);
    for index in 2..17_u32 {
        assert_eq!(rt; life_of(&closed, index), Some((1, 1)), "{index}");
    }
    assert_eq!(rt; life_of(&closed, 17), Some((2, 2)));
    Ok(())
}

// Inside a guard of the caller, which holds the record of key 1: what became of it when another caller had taken away
// key 1 and keys 2 to 16.
fn beside_one_held<R: Scheme>(
    hash: &MichaelHash<R, Bump, NoPool>,
    caller: &mut Caller<MichaelShape, R>,
    other: &mut Caller<MichaelShape, R>,
) -> Option<Kept>
    requires caller { IsWholeCallerOf R.is_local hash.now.lists.manager.table caller.old }
    requires other { IsWholeCallerOf R.is_local hash.now.lists.manager.table other.old }
    ensures caller { IsWholeCallerOf R.is_local hash.now.lists.manager.table caller.new }
    ensures other { IsWholeCallerOf R.is_local hash.now.lists.manager.table other.new }
{
    let mut guard = hash.begin(caller);
    let kept = hold_while_keys_go(hash, &mut guard, other, 16);
    guard.finish();
    kept
}

// Fifteen records live at epoch 1, which is the interval of the caller that stays inside, and the sixteenth at epoch 2, which
// is that of the one that scans. Once the former has finished, all go but the one that is retired last.
#[test]
fn lives_in_another_callers_interval_stay(rt: HostRuntime) -> Result<(), Fail> {
    let first = Generation::new(1).ok_or("one")?;
    let (hash, mut callers) = IbrHash::prepare(rt.alloc(), 33, 2, first, 1)?;
    let mut other = take(&hash, &mut callers).ok_or("caller 1")?;
    let mut caller = take(&hash, &mut callers).ok_or("caller 0")?;
    assert!(rt; are_told(&hash, &mut other, &[(Call::Insert(1), Answer::Done(true))]));
    let Kept {
        record,
        done,
        counts,
        key,
    } = beside_one_held(&hash, &mut caller, &mut other).ok_or("a record")?;
    assert_eq!(rt; (record.index, record.generation.get()), (2, 1));
    assert!(rt; done);
    assert_eq!(rt; key, 1);
    let told = Counts {
        drawn: 16,
        reused: 0,
        retired: 16,
        freed: 0,
        limbo: 16,
        free: 0,
        spare: 0,
        spent: 0,
    };
    assert_eq!(rt; counts, told);
    assert!(rt; come_and_go(&hash, &mut other, 17, 32));
    let told = Counts {
        drawn: 32,
        reused: 0,
        retired: 32,
        freed: 31,
        limbo: 1,
        free: 31,
        spare: 0,
        spent: 0,
    };
    assert_eq!(rt; hash.counts(&other), told);
    Ok(())
}

// Inside a guard of the caller: whether another caller let keys 1 to 16 come and go and added key 17 then, and what two tries
// to hold the record of key 17 answer.
fn two_tries_behind_16_births<R: Scheme>(
    hash: &MichaelHash<R, Bump, NoPool>,
    caller: &mut Caller<MichaelShape, R>,
    other: &mut Caller<MichaelShape, R>,
) -> (bool, Holding, Holding)
    requires caller { IsWholeCallerOf R.is_local hash.now.lists.manager.table caller.old }
    requires other { IsWholeCallerOf R.is_local hash.now.lists.manager.table other.old }
{
    let mut guard = hash.begin(caller);
    let gone = come_and_go(hash, other, 1, 16);
    let done = play(hash, other, Call::Insert(17)) == Answer::Done(true) && gone;
    let one = guard.hold(0, Node::Root(0), 3);
    let another = guard.hold(0, Node::Root(0), 3);
    guard.finish();
    (done, one, another)
}

// The epoch moved on since the caller began. Its first try to hold raises the upper end of its interval, and the second holds.
#[test]
fn a_caller_tries_again_where_the_epoch_moved(rt: HostRuntime) -> Result<(), Fail> {
    let first = Generation::new(1).ok_or("one")?;
    let (hash, mut callers) = IbrHash::prepare(rt.alloc(), 33, 2, first, 1)?;
    let mut other = take(&hash, &mut callers).ok_or("caller 1")?;
    let mut caller = take(&hash, &mut callers).ok_or("caller 0")?;
    let (done, one, another) = two_tries_behind_16_births(&hash, &mut caller, &mut other);
    assert!(rt; done);
    assert_eq!(rt; one, Holding::Moved { found: 2 });
    let held = Held {
        place: 0,
        target: Ref::new(18, first),
    };
    assert_eq!(rt; another, Holding::Held(held));
    Ok(())
}
