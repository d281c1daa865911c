// Many cases as one table.
use crate::turns::{close_sums, play_in_turn};
use key_sums::{Tally, tally};
use list_tests::TestList;
use row_words::Generation;
use set_model::Call::{Insert, Remove, Search};
use set_model::Reply::{Full, No, Yes};
use set_model::{Call, Reply};
use std::alloc::Global;
use std::test::Fail;

// How many records, callers and roots a set has.
type Numbers = (u32, u32, u32);

// What callers in turn leave of such a set, where they got these replies, and where their tally agrees.
fn left(alloc: Global, numbers: Numbers, calls: &[Call], replies: &[Reply]) -> Option<(u64, u64)> {
    let (records, callers, roots) = numbers;
    if roots == 0 || calls.len() != replies.len() {
        return None;
    }
    let first = Generation::new(1)?;
    let (list, mut callers) = TestList::prepare(alloc, records, callers, first, roots).ok()?;
    if !play_in_turn(&list, &mut callers, calls, replies) {
        return None;
    }
    let Tally {
        added,
        removed,
        added_sum,
        removed_sum,
    } = tally(calls, replies);
    let (size, sum) = close_sums(list, callers);
    let counted = added.checked_sub(removed) == Some(size);
    let summed = added_sum.checked_sub(removed_sum) == Some(u128::from(sum));
    (counted && summed).then_some((size, sum))
}

#[test]
fn adds_up_what_callers_leave(rt: HostRuntime) -> Result<(), Fail> {
    let alloc = rt.alloc();

    // No call.
    assert_eq!(rt; left(alloc, (1, 1, 1), &[], &[]), Some((0, 0)));

    // One key, each way.
    assert_eq!(rt;
        left(
            alloc,
            (8, 1, 1),
            &[
                Insert(5),
                Insert(5),
                Search(5),
                Remove(5),
                Remove(5),
                Search(5)
            ],
            &[Yes, No, Yes, Yes, No, No],
        ),
        Some((0, 0))
    );

    // The least and the greatest key.
    assert_eq!(rt;
        left(
            alloc,
            (8, 1, 4),
            &[Insert(0), Insert(1099511627773)],
            &[Yes, Yes],
        ),
        Some((2, 1099511627773))
    );

    // A record that is in limbo isn't handed out again.
    assert_eq!(rt;
        left(
            alloc,
            (2, 1, 1),
            &[Insert(1), Remove(1), Insert(2), Search(2)],
            &[Yes, Yes, Full, No],
        ),
        Some((0, 0))
    );

    // Three keys in one list, and one too many.
    assert_eq!(rt;
        left(
            alloc,
            (4, 1, 1),
            &[Insert(1), Insert(2), Insert(3)],
            &[Yes, Yes, Yes]
        ),
        Some((3, 6))
    );
    assert_eq!(rt;
        left(
            alloc,
            (3, 1, 1),
            &[Insert(1), Insert(2), Insert(3)],
            &[Yes, Yes, Full]
        ),
        Some((2, 3))
    );

    // Two callers, several lists, and keys on each.
    assert_eq!(rt;
        left(
            alloc,
            (8, 2, 2),
            &[
                Insert(2),
                Insert(3),
                Search(2),
                Remove(5),
                Remove(2),
                Search(3),
                Insert(4)
            ],
            &[Yes, Yes, Yes, No, Yes, Yes, Yes],
        ),
        Some((2, 7))
    );

    // The last list alone has keys, and the first alone.
    assert_eq!(rt;
        left(
            alloc,
            (8, 3, 3),
            &[Insert(2), Insert(5), Insert(2)],
            &[Yes, Yes, No]
        ),
        Some((2, 7))
    );
    assert_eq!(rt;
        left(
            alloc,
            (8, 3, 3),
            &[Insert(9), Insert(6), Remove(9)],
            &[Yes, Yes, Yes]
        ),
        Some((1, 6))
    );
    Ok(())
}
