// Calls of one caller, at one bucket and at many.
ghost use Rattle.std.specs.Prelude.{◌≤◌, ◌<◌};
ghost use Rattle.set_model.specs.Machine.{key_of};
ghost use Rattle.hash_tests.specs.Only.{IsOnlyCallerOf};
ghost use Rattle.reclaim_none.specs.Starting.{IsLocal};

use crate::reclaimed::only;
use alloc_bump::Bump;
use closed_lists::show_lists;
use key_sums::size_and_sum;
use manager::Caller;
use michael_hash::MichaelHash;
use michael_list::MichaelShape;
use pool::NoPool;
use reclaim_none::NoReclaim;
use row_words::Generation;
use set_api::{Answer, ConcurrentSet};
use set_model::{Call, Counts};
use std::alloc::Global;
use std::test::Fail;

type TestHash = MichaelHash<NoReclaim, Bump, NoPool>;

type TestCaller = Caller<MichaelShape, NoReclaim>;

const GREATEST: u64 = 1_099_511_627_773;

// Makes the call.
fn play(hash: &TestHash, caller: &mut TestCaller, call: Call, budget: u32) -> Answer
    requires only { IsOnlyCallerOf IsLocal hash.now.lists.manager.table caller.old }
    requires key { key_of call ≤ 1099511627773 }
    ensures only { IsOnlyCallerOf IsLocal hash.now.lists.manager.table caller.new }
{
    hash.play(caller, call, budget)
}

// Ends the table, and gives the number and the sum of its keys.
fn sums(alloc: Global, hash: TestHash, caller: TestCaller) -> Result<(u64, u64), Fail>
    requires only { IsOnlyCallerOf IsLocal hash.lists.manager.table caller }
{
    let callers = Vec::from_array(alloc, [caller])?;
    let closed = ConcurrentSet::close(hash, callers);
    show_lists::<MichaelShape, NoReclaim>(&closed);
    Ok(size_and_sum(&closed))
}

// What a table with room for three keys and so many buckets answers to fourteen calls, what its caller counts then, and
// the number and the sum of the keys that it has in the end.
fn asked(alloc: Global, buckets: u32) -> Result<([Answer; 14], Counts, (u64, u64)), Fail>
    requires { (0 < buckets) × (buckets ≤ 64) }
{
    let first = Generation::new(1).ok_or("one")?;
    let (hash, callers) = TestHash::prepare(alloc, buckets + 3, 1, first, buckets)?;
    let mut caller = only(&hash, callers).ok_or("one caller")?;
    let answers = [
        play(&hash, &mut caller, Call::Search(0), 10),
        play(&hash, &mut caller, Call::Insert(0), 10),
        play(&hash, &mut caller, Call::Insert(0), 10),
        play(&hash, &mut caller, Call::Search(GREATEST), 10),
        play(&hash, &mut caller, Call::Insert(GREATEST), 10),
        play(&hash, &mut caller, Call::Search(0), 10),
        play(&hash, &mut caller, Call::Search(GREATEST), 10),
        play(&hash, &mut caller, Call::Search(GREATEST), 1),
        play(&hash, &mut caller, Call::Remove(GREATEST), 0),
        play(&hash, &mut caller, Call::Remove(5), 10),
        play(&hash, &mut caller, Call::Insert(5), 10),
        play(&hash, &mut caller, Call::Remove(5), 10),
        play(&hash, &mut caller, Call::Search(5), 10),
        play(&hash, &mut caller, Call::Insert(5), 10),
    ];
    let counts = ConcurrentSet::counts(&hash, &caller);
    Ok((answers, counts, sums(alloc, hash, caller)?))
}

// What is answered: to the search for the greatest key within one hop, and to the insertion that finds no record, so.
fn told(within_one: Answer, at_the_end: Answer) -> [Answer; 14] {
    let yes = Answer::Done(true);
    let no = Answer::Done(false);
    [
        no,
        yes,
        no,
        no,
        yes,
        yes,
        yes,
        within_one,
        Answer::Again { hops: 0 },
        no,
        yes,
        yes,
        no,
        at_the_end,
    ]
}

#[test]
fn one_bucket_has_all_keys(rt: HostRuntime) -> Result<(), Fail> {
    let (answers, counts, sums) = asked(rt.alloc(), 1)?;
    // The greatest key stands behind key 0, so one hop isn't enough.
    assert_eq!(rt;
        answers,
        told(Answer::Again { hops: 1 }, Answer::Full { found: 4 })
    );
    assert_eq!(rt; (counts.drawn, counts.retired, counts.limbo), (3, 1, 1));
    assert_eq!(rt; sums, (2, 1_099_511_627_773));
    Ok(())
}

#[test]
fn of_64_buckets_each_key_has_its_own(rt: HostRuntime) -> Result<(), Fail> {
    let (answers, counts, sums) = asked(rt.alloc(), 64)?;
    // The greatest key is alone in bucket 61.
    assert_eq!(rt;
        answers,
        told(Answer::Done(true), Answer::Full { found: 67 })
    );
    assert_eq!(rt; (counts.drawn, counts.retired, counts.limbo), (3, 1, 1));
    assert_eq!(rt; sums, (2, 1_099_511_627_773));
    Ok(())
}

// Behind keys 1 and 2 a call makes a third hop to see the end of the list.
#[test]
fn no_call_makes_a_hop_beyond_its_budget(rt: HostRuntime) -> Result<(), Fail> {
    let first = Generation::new(1).ok_or("one")?;
    let (hash, callers) = TestHash::prepare(rt.alloc(), 4, 1, first, 1)?;
    let mut caller = only(&hash, callers).ok_or("one caller")?;
    let answers = [
        play(&hash, &mut caller, Call::Insert(1), 1),
        play(&hash, &mut caller, Call::Insert(2), 2),
        play(&hash, &mut caller, Call::Search(2), 1),
        play(&hash, &mut caller, Call::Search(2), 2),
        play(&hash, &mut caller, Call::Insert(3), 2),
        play(&hash, &mut caller, Call::Insert(3), 0),
    ];
    let told = [
        Answer::Done(true),
        Answer::Done(true),
        Answer::Again { hops: 1 },
        Answer::Done(true),
        Answer::Again { hops: 2 },
        Answer::Again { hops: 0 },
    ];
    assert_eq!(rt; answers, told);
    let counts = ConcurrentSet::counts(&hash, &caller);
    assert_eq!(rt; (counts.drawn, counts.spare), (2, 0));
    assert_eq!(rt; sums(rt.alloc(), hash, caller)?, (2, 3));
    Ok(())
}
