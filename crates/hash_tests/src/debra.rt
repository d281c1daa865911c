// Records that DEBRA frees, or doesn't: a record at its last generation, and one that another caller holds.
use crate::holding::held_meanwhile;
use crate::reclaimed::{are_told, first_record, take};
use alloc_bump::Bump;
use michael_hash::MichaelHash;
use pool::NoPool;
use reclaim_debra::Debra;
use row_words::Generation;
use set_api::Answer;
use set_model::{Call, Counts};
use std::test::Fail;

// A record at the last generation but one is used twice.
#[test]
fn a_record_with_the_last_generation_is_spent(rt: HostRuntime) -> Result<(), Fail> {
    let first = Generation::new(1_048_574).ok_or("the last but one")?;
    let (hash, mut callers) = MichaelHash::<Debra, Bump, NoPool>::prepare(
        rt.alloc(),
        2,
        1,
        first,
        1,
    )?;
    let mut caller = take(&hash, &mut callers).ok_or("a caller")?;
    let calls = [
        (Call::Insert(1), Answer::Done(true)),
        (Call::Remove(1), Answer::Done(true)),
        (Call::Search(1), Answer::Done(false)),
        (Call::Search(1), Answer::Done(false)),
        (Call::Insert(1), Answer::Done(true)),
        (Call::Remove(1), Answer::Done(true)),
        (Call::Search(1), Answer::Done(false)),
        (Call::Search(1), Answer::Done(false)),
        (Call::Insert(1), Answer::Full { found: 2 }),
    ];
    assert!(rt; are_told(&hash, &mut caller, &calls));
    let counts = Counts {
        drawn: 1,
        reused: 1,
        retired: 2,
        freed: 2,
        limbo: 0,
        free: 0,
        spare: 0,
        spent: 1,
    };
    assert_eq!(rt; hash.counts(&caller), counts);
    Ok(())
}

// A record that was taken out isn't used again while another caller's guard, which reached it, goes on.
#[test]
fn a_held_record_is_not_used_again(rt: HostRuntime) -> Result<(), Fail> {
    let first = Generation::new(1).ok_or("one")?;
    let (hash, mut callers) = MichaelHash::<Debra, Bump, NoPool>::prepare(
        rt.alloc(),
        3,
        2,
        first,
        1,
    )?;
    let mut other = take(&hash, &mut callers).ok_or("caller 1")?;
    let mut caller = take(&hash, &mut callers).ok_or("caller 0")?;
    assert!(rt; are_told(&hash, &mut other, &[(Call::Insert(1), Answer::Done(true))]));
    let calls = [
        (Call::Remove(1), Answer::Done(true)),
        (Call::Insert(2), Answer::Done(true)),
        (Call::Remove(2), Answer::Done(true)),
        (Call::Insert(3), Answer::Full { found: 3 }),
    ];
    let (record, told, key) = held_meanwhile(&hash, &mut caller, &mut other, &calls).ok_or(
        "a record",
    )?;
    assert_eq!(rt; (record.index, record.generation.get()), (2, 1));
    assert!(rt; told);
    assert_eq!(rt; key, 1);
    let calls = [
        (Call::Search(3), Answer::Done(false)),
        (Call::Search(3), Answer::Done(false)),
        (Call::Search(3), Answer::Done(false)),
        (Call::Search(3), Answer::Done(false)),
        (Call::Insert(3), Answer::Done(true)),
    ];
    assert!(rt; are_told(&hash, &mut other, &calls));
    let record = first_record(&hash, &mut caller).ok_or("a record")?;
    assert_eq!(rt; (record.index, record.generation.get()), (2, 2));
    Ok(())
}
