// Runs whose replies don't depend on the schedule, as one table.
ghost use Rattle.std.specs.Prelude.{◌<◌, ◌≤◌};

use closed_lists::show_lists;
use hash_runs::play_hash_none;
use key_sums::size_and_sum;
use michael_list::MichaelShape;
use outside::FreeGate;
use reclaim_none::NoReclaim;
use set_model::Reply;
use set_model::Reply::{Full, No, Yes};
use std::alloc::Global;
use std::sync::Wait;
use std::test::Fail;
use std::thread::Threads;
use workload_text::read_workload;

// Whether the replies to all callers, one caller after another, are these.
fn are_told(told: &[Vec<Reply>], replies: &[Reply]) -> bool {
    let mut rest = replies.iter();
    for own in told {
        for reply in own.iter() {
            if rest.next() != Some(reply) {
                return false;
            }
        }
    }
    rest.next().is_none()
}

// Whether the workload, on an empty table of so many records and buckets, gets these replies, and leaves so many keys
// with this sum, and these numbers of records that were drawn and retired and that are in limbo.
fn leaves<R: Threads + Wait + Sync>(
    rt: &R,
    alloc: Global,
    text: &[u8],
    records: u32,
    buckets: u32,
    replies: &[Reply],
    sums: (u64, u64),
    counts: (u64, u64, u64),
) -> bool
    requires records { records ≤ 1048575 }
    requires buckets { 0 < buckets }
    requires room { buckets ≤ records }
{
    let Ok(workload) = read_workload(alloc, text) else {
        return false;
    };
    let Ok(played) = play_hash_none(alloc, rt, &FreeGate, &workload, records, buckets) else {
        return false;
    };
    show_lists::<MichaelShape, NoReclaim>(&played.closed);
    are_told(&played.replies, replies)
        && size_and_sum(&played.closed) == sums
        && (
            played.counts.drawn,
            played.counts.retired,
            played.counts.limbo,
        ) == counts
}

#[test]
fn plays_what_no_schedule_changes(rt: HostRuntime) -> Result<(), Fail> {
    let alloc = rt.alloc();

    // No call.
    assert!(rt;
        leaves(
            &rt,
            alloc,
            b"setbench 1\ncallers 1\ncaller 0\nend\n",
            64,
            64,
            &[],
            (0, 0),
            (0, 0, 0)
        )
    );

    // The least and the greatest key.
    assert!(rt;
        leaves(
            &rt,
            alloc,
            b"setbench 1\ncallers 1\ncaller 0\ni 0\ni 1099511627773\nend\n",
            66,
            64,
            &[Yes, Yes],
            (2, 1099511627773),
            (2, 0, 0)
        )
    );

    // A record in limbo isn't handed out again.
    assert!(rt;
        leaves(
            &rt,
            alloc,
            b"setbench 1\ncallers 1\ncaller 0\ni 1\nr 1\ni 2\ns 2\nend\n",
            2,
            1,
            &[Yes, Yes, Full, No],
            (0, 0),
            (1, 1, 1)
        )
    );

    // As many records as are needed, and one fewer.
    assert!(rt;
        leaves(
            &rt,
            alloc,
            b"setbench 1\ncallers 1\ncaller 0\ni 1\ni 2\ni 3\nend\n",
            4,
            1,
            &[Yes, Yes, Yes],
            (3, 6),
            (3, 0, 0)
        )
    );
    assert!(rt;
        leaves(
            &rt,
            alloc,
            b"setbench 1\ncallers 1\ncaller 0\ni 1\ni 2\ni 3\nend\n",
            3,
            1,
            &[Yes, Yes, Full],
            (2, 3),
            (2, 0, 0)
        )
    );

    // Two callers on keys of their own, at the same time.
    assert!(rt;
        leaves(
            &rt,
            alloc,
            b"setbench 1\ncallers 2\ncaller 0\ni 2\ns 2\nr 2\ni 4\ncaller 1\ni 3\nr 5\ns 3\nend\n",
            67,
            64,
            &[Yes, Yes, Yes, Yes, Yes, No, Yes],
            (2, 7),
            (3, 1, 1)
        )
    );

    // Two phases: what one caller did in the first, the other one finds in the second.
    assert!(rt;
        leaves(
            &rt,
            alloc,
            b"setbench 2\ncallers 2\ncaller 0\ni 5\nphase\nr 7\ncaller 1\ni 7\nphase\ns 5\nend\n",
            66,
            64,
            &[Yes, Yes, Yes, Yes],
            (1, 5),
            (2, 1, 1)
        )
    );
    Ok(())
}

#[test]
fn one_of_two_callers_adds_a_key(rt: HostRuntime) -> Result<(), Fail> {
    let text = b"setbench 1\ncallers 2\ncaller 0\ni 9\ncaller 1\ni 9\nend\n";
    let alloc = rt.alloc();
    let workload = read_workload(alloc, text).ok().ok_or("a workload")?;
    let Ok(played) = play_hash_none(alloc, &rt, &FreeGate, &workload, 66, 64) else {
        return Err(Fail::from("a run"));
    };
    let first = are_told(&played.replies, &[Yes, No]);
    let second = are_told(&played.replies, &[No, Yes]);
    assert!(rt; first || second);
    show_lists::<MichaelShape, NoReclaim>(&played.closed);
    assert_eq!(rt; size_and_sum(&played.closed), (1, 9));
    let drawn = (played.counts.drawn, played.counts.spare);
    assert!(rt; drawn == (1, 0) || drawn == (2, 1));
    Ok(())
}
