// Free records that go from one caller to another over the shelves of the pool.
ghost use Rattle.std.specs.Prelude.{◌≡◌, ◌≤◌, All, IfSome};
ghost use Rattle.record_table.specs.Handles.{view};
ghost use Rattle.michael_hash.specs.Callers.{IsWholeCallerOf};

use alloc_bump::Bump;
use manager::Caller;
use michael_hash::MichaelHash;
use michael_list::MichaelShape;
use pool::{Pool, ShelfPool};
use reclaim_api::Scheme;
use reclaim_debra::Debra;
use row_words::Generation;
use set_api::{Answer, ConcurrentSet};
use set_model::Call;
use std::test::Fail;

// The last of these callers, where there is one, and the others still.
fn take<R: Scheme, P: Pool>(
    hash: &MichaelHash<R, Bump, P>,
    callers: &mut Vec<Caller<MichaelShape, R>>,
) -> Option<Caller<MichaelShape, R>>
    requires all { All (IsWholeCallerOf R.is_local hash.now.lists.manager.table) callers.old.items }
    ensures rest { All (IsWholeCallerOf R.is_local hash.now.lists.manager.table) callers.new.items }
    ensures taken { IfSome result (IsWholeCallerOf R.is_local hash.now.lists.manager.table) }
{
    callers.pop()
}

// Adds the keys from the first to the last one: how many insertions were answered Yes.
fn add<R: Scheme, P: Pool>(
    hash: &MichaelHash<R, Bump, P>,
    caller: &mut Caller<MichaelShape, R>,
    first: u64,
    last: u64,
) -> u64
    requires caller { IsWholeCallerOf R.is_local hash.now.lists.manager.table caller.old }
    requires keys { last ≤ 1099511627773 }
    ensures caller { IsWholeCallerOf R.is_local hash.now.lists.manager.table caller.new }
{
    let mut added = 0_u64;
    for key in first..last + 1 {
        if hash.play(caller, Call::Insert(key), 1_000) == Answer::Done(true) {
            added = added.saturating_add(1);
        }
    }
    added
}

// Takes these keys away: how many removals were answered Yes.
fn remove<R: Scheme, P: Pool>(
    hash: &MichaelHash<R, Bump, P>,
    caller: &mut Caller<MichaelShape, R>,
    first: u64,
    last: u64,
) -> u64
    requires caller { IsWholeCallerOf R.is_local hash.now.lists.manager.table caller.old }
    requires keys { last ≤ 1099511627773 }
    ensures caller { IsWholeCallerOf R.is_local hash.now.lists.manager.table caller.new }
{
    let mut removed = 0_u64;
    for key in first..last + 1 {
        if hash.play(caller, Call::Remove(key), 1_000) == Answer::Done(true) {
            removed = removed.saturating_add(1);
        }
    }
    removed
}

// One caller frees so many records that it puts some on a shelf, which another caller takes from there.
#[test]
fn a_chain_goes_to_another_caller(rt: HostRuntime) -> Result<(), Fail> {
    let first = Generation::new(1).ok_or("one")?;
    let (hash, mut callers) = MichaelHash::<Debra, Bump, ShelfPool>::prepare(
        rt.alloc(),
        116,
        2,
        first,
        16,
    )?;
    let mut other = take(&hash, &mut callers).ok_or("caller 1")?;
    let mut caller = take(&hash, &mut callers).ok_or("caller 0")?;
    assert_eq!(rt; add(&hash, &mut caller, 1, 101), 100);
    // Every record is drawn, no shelf has a chain, and caller 1 has no record.
    assert_eq!(rt; add(&hash, &mut other, 201, 300), 0);
    assert_eq!(rt; remove(&hash, &mut caller, 1, 100), 100);
    let counts = hash.counts(&caller);
    assert_eq!(rt; (counts.freed, counts.free), (94, 62));
    // The 32 that it has no more are caller 1's.
    assert_eq!(rt; add(&hash, &mut other, 201, 300), 32);
    assert_eq!(rt; hash.counts(&other).drawn, 0);
    Ok(())
}

// With all sixteen shelves taken, a caller keeps what it frees.
#[test]
fn sixteen_shelves_have_as_many_chains(rt: HostRuntime) -> Result<(), Fail> {
    let first = Generation::new(1).ok_or("one")?;
    let (hash, mut callers) = MichaelHash::<Debra, Bump, ShelfPool>::prepare(
        rt.alloc(),
        764,
        2,
        first,
        64,
    )?;
    let mut other = take(&hash, &mut callers).ok_or("caller 1")?;
    let mut caller = take(&hash, &mut callers).ok_or("caller 0")?;
    assert_eq!(rt; add(&hash, &mut caller, 1, 700), 700);
    assert_eq!(rt; remove(&hash, &mut caller, 1, 700), 700);
    let counts = hash.counts(&caller);
    assert_eq!(rt; (counts.freed, counts.free), (694, 182));
    // Caller 1 takes the sixteen chains, and finds no record then.
    assert_eq!(rt; add(&hash, &mut other, 1_001, 1_600), 512);
    assert_eq!(rt; hash.counts(&other).drawn, 0);
    Ok(())
}
