// Records that hazard pointers free, or don't: records at their last generation, and those that another caller holds.
ghost use Rattle.std.specs.Prelude.{◌≤◌};
ghost use Rattle.michael_hash.specs.Callers.{IsWholeCallerOf};

use crate::holding::{Kept, hold_three, hold_while_keys_go, keys_of_three};
use crate::reclaimed::{are_told, come_and_go, first_record, play, take};
use alloc_bump::Bump;
use manager::Caller;
use michael_hash::MichaelHash;
use michael_list::MichaelShape;
use pool::NoPool;
use reclaim_api::Scheme;
use reclaim_hazard::Hazard;
use row_words::{Generation, Ref};
use set_api::Answer;
use set_model::{Call, Counts};
use std::test::Fail;

type HazardHash = MichaelHash<Hazard, Bump, NoPool>;

// Six records are used once each, at the last generation. The scan at the sixth retirement keeps the one that the
// caller's own word names, and the others are spent.
#[test]
fn records_with_the_last_generation_are_spent(rt: HostRuntime) -> Result<(), Fail> {
    let first = Generation::new(1_048_575).ok_or("the last one")?;
    let (hash, mut callers) = HazardHash::prepare(rt.alloc(), 7, 1, first, 1)?;
    let mut caller = take(&hash, &mut callers).ok_or("a caller")?;
    assert!(rt; come_and_go(&hash, &mut caller, 1, 6));
    assert_eq!(rt;
        play(&hash, &mut caller, Call::Insert(7)),
        Answer::Full { found: 7 }
    );
    let counts = Counts {
        drawn: 6,
        reused: 0,
        retired: 6,
        freed: 5,
        limbo: 1,
        free: 0,
        spare: 0,
        spent: 5,
    };
    assert_eq!(rt; hash.counts(&caller), counts);
    Ok(())
}

// With 64 callers the scan is at the 384th retirement, over 192 words. It keeps the record that the caller's own word names.
#[test]
fn a_scan_goes_over_the_words_of_64_callers(rt: HostRuntime) -> Result<(), Fail> {
    let first = Generation::new(1).ok_or("one")?;
    let (hash, mut callers) = HazardHash::prepare(rt.alloc(), 385, 64, first, 1)?;
    let mut caller = take(&hash, &mut callers).ok_or("a caller")?;
    assert!(rt; come_and_go(&hash, &mut caller, 1, 383));
    assert_eq!(rt; hash.counts(&caller).limbo, 383);
    assert!(rt; come_and_go(&hash, &mut caller, 384, 384));
    let counts = Counts {
        drawn: 384,
        reused: 0,
        retired: 384,
        freed: 383,
        limbo: 1,
        free: 383,
        spare: 0,
        spent: 0,
    };
    assert_eq!(rt; hash.counts(&caller), counts);
    Ok(())
}

// Inside a guard of the caller, which holds the record of key 1: what became of it when another caller had taken away
// key 1 and keys 2 to 12, how key 13 was added then, and the record that the first bucket led to.
fn key_13_beside_one_held<R: Scheme>(
    hash: &MichaelHash<R, Bump, NoPool>,
    caller: &mut Caller<MichaelShape, R>,
    other: &mut Caller<MichaelShape, R>,
) -> (Option<Kept>, Answer, Option<Ref>)
    requires caller { IsWholeCallerOf R.is_local hash.now.lists.manager.table caller.old }
    requires other { IsWholeCallerOf R.is_local hash.now.lists.manager.table other.old }
    ensures caller { IsWholeCallerOf R.is_local hash.now.lists.manager.table caller.new }
    ensures other { IsWholeCallerOf R.is_local hash.now.lists.manager.table other.new }
{
    let mut guard = hash.begin(caller);
    let kept = hold_while_keys_go(hash, &mut guard, other, 12);
    let added = play(hash, other, Call::Insert(13));
    let next = first_record(hash, other);
    guard.finish();
    (kept, added, next)
}

// The scan at the twelfth retirement keeps record 2, which the other caller holds, and record 13, which its own word names.
// Key 13 gets one of the others.
#[test]
fn a_held_record_stays_and_others_come_back(rt: HostRuntime) -> Result<(), Fail> {
    let first = Generation::new(1).ok_or("one")?;
    let (hash, mut callers) = HazardHash::prepare(rt.alloc(), 14, 2, first, 1)?;
    let mut other = take(&hash, &mut callers).ok_or("caller 1")?;
    let mut caller = take(&hash, &mut callers).ok_or("caller 0")?;
    assert!(rt; are_told(&hash, &mut other, &[(Call::Insert(1), Answer::Done(true))]));
    let (kept, added, next) = key_13_beside_one_held(&hash, &mut caller, &mut other);
    let Kept {
        record,
        done,
        counts,
        key,
    } = kept.ok_or("a record")?;
    assert_eq!(rt; (record.index, record.generation.get()), (2, 1));
    assert!(rt; done);
    assert_eq!(rt; key, 1);
    let told = Counts {
        drawn: 12,
        reused: 0,
        retired: 12,
        freed: 10,
        limbo: 2,
        free: 10,
        spare: 0,
        spent: 0,
    };
    assert_eq!(rt; counts, told);
    assert_eq!(rt; added, Answer::Done(true));
    let next = next.ok_or("a record")?;
    assert_eq!(rt; next.generation.get(), 2);
    assert!(rt; next.index != 2 && next.index != 13);
    Ok(())
}

// Adds the keys from the first to the last one and takes each away before the next: whether all of this was done, and the
// first bucket led to none of these records meanwhile.
fn come_and_go_elsewhere<R: Scheme>(
    hash: &MichaelHash<R, Bump, NoPool>,
    caller: &mut Caller<MichaelShape, R>,
    first: u64,
    last: u64,
    indexes: &[u32; 3],
) -> bool
    requires caller { IsWholeCallerOf R.is_local hash.now.lists.manager.table caller.old }
    requires keys { last ≤ 1099511627773 }
    ensures { IsWholeCallerOf R.is_local hash.now.lists.manager.table caller.new }
{
    for key in first..last + 1 {
        let added = play(hash, caller, Call::Insert(key)) == Answer::Done(true);
        let Some(record) = first_record(hash, caller) else {
            return false;
        };
        let gone = play(hash, caller, Call::Remove(key)) == Answer::Done(true);
        if !added || !gone || indexes.contains(&record.index) {
            return false;
        }
    }
    true
}

// Inside a guard of the caller, which holds the records of keys 1 to 3: their indexes, whether another caller took these
// keys away and let keys 4 to 303 come and go in other records, its counts then, and the three keys.
fn beside_three_held<R: Scheme>(
    hash: &MichaelHash<R, Bump, NoPool>,
    caller: &mut Caller<MichaelShape, R>,
    other: &mut Caller<MichaelShape, R>,
) -> Option<([u32; 3], bool, Counts, [u64; 3])>
    requires caller { IsWholeCallerOf R.is_local hash.now.lists.manager.table caller.old }
    requires other { IsWholeCallerOf R.is_local hash.now.lists.manager.table other.old }
    ensures caller { IsWholeCallerOf R.is_local hash.now.lists.manager.table caller.new }
    ensures other { IsWholeCallerOf R.is_local hash.now.lists.manager.table other.new }
{
    let mut guard = hash.begin(caller);
    let Some(three) = hold_three(&mut guard) else {
        guard.finish();
        return None;
    };
    let indexes = [
        three.0.target.index,
        three.1.target.index,
        three.2.target.index,
    ];
    let calls = [
        (Call::Remove(1), Answer::Done(true)),
        (Call::Remove(2), Answer::Done(true)),
        (Call::Remove(3), Answer::Done(true)),
    ];
    let told = are_told(hash, other, &calls);
    let done = come_and_go_elsewhere(hash, other, 4, 303, &indexes);
    let counts = hash.counts(other);
    let keys = keys_of_three(&mut guard, three);
    guard.finish();
    Some((indexes, told && done, counts, keys))
}

// Each scan keeps the three records that the other caller holds and the one that its own word names, until the other
// caller has finished: then all but the latter come back.
#[test]
fn three_held_records_stay(rt: HostRuntime) -> Result<(), Fail> {
    let first = Generation::new(1).ok_or("one")?;
    let (hash, mut callers) = HazardHash::prepare(rt.alloc(), 40, 2, first, 1)?;
    let mut other = take(&hash, &mut callers).ok_or("caller 1")?;
    let mut caller = take(&hash, &mut callers).ok_or("caller 0")?;
    let calls = [
        (Call::Insert(1), Answer::Done(true)),
        (Call::Insert(2), Answer::Done(true)),
        (Call::Insert(3), Answer::Done(true)),
    ];
    assert!(rt; are_told(&hash, &mut other, &calls));
    let (indexes, done, counts, keys) = beside_three_held(&hash, &mut caller, &mut other).ok_or(
        "three records",
    )?;
    assert_eq!(rt; indexes, [2, 3, 4]);
    assert!(rt; done);
    assert_eq!(rt; keys, [1, 2, 3]);
    // Twelve records are drawn until the first scan, which frees eight, as does each of the 36 that follow.
    let told = Counts {
        drawn: 12,
        reused: 291,
        retired: 303,
        freed: 296,
        limbo: 7,
        free: 5,
        spare: 0,
        spent: 0,
    };
    assert_eq!(rt; counts, told);
    assert!(rt; come_and_go(&hash, &mut other, 4, 8));
    let told = Counts {
        drawn: 12,
        reused: 296,
        retired: 308,
        freed: 307,
        limbo: 1,
        free: 11,
        spare: 0,
        spent: 0,
    };
    assert_eq!(rt; hash.counts(&other), told);
    Ok(())
}
