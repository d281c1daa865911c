// Runs whose replies don't depend on the order of steps, as one table, and words that are refused.

use crate::program::{Faults, run_failing, run_on};
use std::test::Fail;

/// Words, a text, the status and what is printed.
const ROWS: [(&str, &str, u8, &str); 26] = [
    // No call.
    (
        "play --set michael --reclaimer none",
        "setbench 1\ncallers 1\ncaller 0\nend\n",
        0,
        "set michael reclaimer none callers 1 calls 0\ncaller 0\nsize 0 sum 0\nrecords drawn 0 reused 0 retired 0 freed 0 limbo 0 free 0 spare 0 spent 0\n",
    ),
    // Each reply of each kind of call.
    (
        "play --set michael --reclaimer none",
        "setbench 1\ncallers 1\ncaller 0\ni 5\ni 5\ns 5\nr 5\nr 5\ns 5\nend\n",
        0,
        "set michael reclaimer none callers 1 calls 6\ncaller 0\ni 5 yes\ni 5 no\ns 5 yes\nr 5 yes\nr 5 no\ns 5 no\nsize 0 sum 0\nrecords drawn 1 reused 0 retired 1 freed 0 limbo 1 free 0 spare 0 spent 0\n",
    ),
    // The least and the greatest key, and one that is too great.
    (
        "play --set michael --reclaimer none",
        "setbench 1\ncallers 1\ncaller 0\ni 0\ni 1099511627773\nend\n",
        0,
        "set michael reclaimer none callers 1 calls 2\ncaller 0\ni 0 yes\ni 1099511627773 yes\nsize 2 sum 1099511627773\nrecords drawn 2 reused 0 retired 0 freed 0 limbo 0 free 0 spare 0 spent 0\n",
    ),
    (
        "play --set michael --reclaimer none",
        "setbench 1\ncallers 1\ncaller 0\ni 0\ni 1099511627774\nend\n",
        3,
        "setbench: workload refused: line 5: key out of range\n",
    ),
    // Keys that share a bucket.
    (
        "play --set michael --reclaimer none",
        "setbench 1\ncallers 1\ncaller 0\ni 129\ni 1\ni 65\ni 1\ns 65\nr 65\ns 65\nr 2\ni 65\nend\n",
        0,
        "set michael reclaimer none callers 1 calls 9\ncaller 0\ni 129 yes\ni 1 yes\ni 65 yes\ni 1 no\ns 65 yes\nr 65 yes\ns 65 no\nr 2 no\ni 65 yes\nsize 3 sum 195\nrecords drawn 4 reused 0 retired 1 freed 0 limbo 1 free 0 spare 0 spent 0\n",
    ),
    // A record in limbo isn't handed out again.
    (
        "play --set michael --reclaimer none --buckets 1 --records 2",
        "setbench 1\ncallers 1\ncaller 0\ni 1\nr 1\ni 2\ns 2\nend\n",
        5,
        "set michael reclaimer none callers 1 calls 4\ncaller 0\ni 1 yes\nr 1 yes\ni 2 full\ns 2 no\nsize 0 sum 0\nrecords drawn 1 reused 0 retired 1 freed 0 limbo 1 free 0 spare 0 spent 0\n",
    ),
    // As many records as are needed, and one fewer.
    (
        "play --set michael --reclaimer none --buckets 1 --records 4",
        "setbench 1\ncallers 1\ncaller 0\ni 1\ni 2\ni 3\nend\n",
        0,
        "set michael reclaimer none callers 1 calls 3\ncaller 0\ni 1 yes\ni 2 yes\ni 3 yes\nsize 3 sum 6\nrecords drawn 3 reused 0 retired 0 freed 0 limbo 0 free 0 spare 0 spent 0\n",
    ),
    (
        "play --set michael --reclaimer none --records 3 --buckets 1",
        "setbench 1\ncallers 1\ncaller 0\ni 1\ni 2\ni 3\nend\n",
        5,
        "set michael reclaimer none callers 1 calls 3\ncaller 0\ni 1 yes\ni 2 yes\ni 3 full\nsize 2 sum 3\nrecords drawn 2 reused 0 retired 0 freed 0 limbo 0 free 0 spare 0 spent 0\n",
    ),
    // The fewest and the most buckets and records: each root takes one, and there may be no other.
    (
        "play --set michael --reclaimer none --buckets 1 --records 1",
        "setbench 1\ncallers 1\ncaller 0\nr 1\ni 1\ns 1\nend\n",
        5,
        "set michael reclaimer none callers 1 calls 3\ncaller 0\nr 1 no\ni 1 full\ns 1 no\nsize 0 sum 0\nrecords drawn 0 reused 0 retired 0 freed 0 limbo 0 free 0 spare 0 spent 0\n",
    ),
    (
        "play --set michael --reclaimer none --records 64",
        "setbench 1\ncallers 1\ncaller 0\ns 1\ni 1\nend\n",
        5,
        "set michael reclaimer none callers 1 calls 2\ncaller 0\ns 1 no\ni 1 full\nsize 0 sum 0\nrecords drawn 0 reused 0 retired 0 freed 0 limbo 0 free 0 spare 0 spent 0\n",
    ),
    (
        "play --set michael --reclaimer none --buckets 4096",
        "setbench 1\ncallers 1\ncaller 0\ni 4095\ni 4096\ns 4095\nend\n",
        0,
        "set michael reclaimer none callers 1 calls 3\ncaller 0\ni 4095 yes\ni 4096 yes\ns 4095 yes\nsize 2 sum 8191\nrecords drawn 2 reused 0 retired 0 freed 0 limbo 0 free 0 spare 0 spent 0\n",
    ),
    (
        "play --allocator bump --records 1048575 --buckets 4096 --reclaimer none --set michael",
        "setbench 1\ncallers 1\ncaller 0\ni 7\nend\n",
        0,
        "set michael reclaimer none callers 1 calls 1\ncaller 0\ni 7 yes\nsize 1 sum 7\nrecords drawn 1 reused 0 retired 0 freed 0 limbo 0 free 0 spare 0 spent 0\n",
    ),
    // Two callers on keys of their own, at the same time.
    (
        "play --set michael --reclaimer none",
        "setbench 1\ncallers 2\ncaller 0\ni 2\ns 2\nr 2\ni 4\ncaller 1\ni 3\nr 5\ns 3\nend\n",
        0,
        "set michael reclaimer none callers 2 calls 7\ncaller 0\ni 2 yes\ns 2 yes\nr 2 yes\ni 4 yes\ncaller 1\ni 3 yes\nr 5 no\ns 3 yes\nsize 2 sum 7\nrecords drawn 3 reused 0 retired 1 freed 0 limbo 1 free 0 spare 0 spent 0\n",
    ),
    // Two phases: what one caller did in the first, the other one finds in the second.
    (
        "play --set michael --reclaimer none",
        "setbench 2\ncallers 2\ncaller 0\ni 5\nphase\nr 7\ncaller 1\ni 7\nphase\ns 5\nend\n",
        0,
        "set michael reclaimer none callers 2 calls 4\ncaller 0\ni 5 yes\nr 7 yes\ncaller 1\ni 7 yes\ns 5 yes\nsize 1 sum 5\nrecords drawn 2 reused 0 retired 1 freed 0 limbo 1 free 0 spare 0 spent 0\n",
    ),
    // Three callers share a key, in a phase each.
    (
        "play --set michael --reclaimer none --buckets 1",
        "setbench 2\ncallers 3\ncaller 0\ni 1\nphase\nphase\ncaller 1\nphase\nr 1\nphase\ncaller 2\nphase\nphase\ns 1\ni 1\nend\n",
        0,
        "set michael reclaimer none callers 3 calls 4\ncaller 0\ni 1 yes\ncaller 1\nr 1 yes\ncaller 2\ns 1 no\ni 1 yes\nsize 1 sum 1\nrecords drawn 2 reused 0 retired 1 freed 0 limbo 1 free 0 spare 0 spent 0\n",
    ),
    // Under DEBRA a record is used again at the third rotation after its retirement.
    (
        "play --set michael --reclaimer debra --buckets 1",
        "setbench 1\ncallers 1\ncaller 0\ni 1\nr 1\ni 2\nr 2\ni 3\nr 3\ni 4\nend\n",
        0,
        "set michael reclaimer debra callers 1 calls 7\ncaller 0\ni 1 yes\nr 1 yes\ni 2 yes\nr 2 yes\ni 3 yes\nr 3 yes\ni 4 yes\nsize 1 sum 4\nrecords drawn 2 reused 2 retired 3 freed 2 limbo 1 free 0 spare 0 spent 0\n",
    ),
    // Where there is one record, an insertion waits until it was freed.
    (
        "play --set michael --reclaimer debra --buckets 1 --records 2",
        "setbench 1\ncallers 1\ncaller 0\ni 1\nr 1\ni 2\ns 2\ns 2\ni 2\nend\n",
        5,
        "set michael reclaimer debra callers 1 calls 6\ncaller 0\ni 1 yes\nr 1 yes\ni 2 full\ns 2 no\ns 2 no\ni 2 yes\nsize 1 sum 2\nrecords drawn 1 reused 1 retired 1 freed 1 limbo 0 free 0 spare 0 spent 0\n",
    ),
    // No call, two callers on keys of their own, and two phases, as above.
    (
        "play --set michael --reclaimer debra",
        "setbench 1\ncallers 1\ncaller 0\nend\n",
        0,
        "set michael reclaimer debra callers 1 calls 0\ncaller 0\nsize 0 sum 0\nrecords drawn 0 reused 0 retired 0 freed 0 limbo 0 free 0 spare 0 spent 0\n",
    ),
    (
        "play --set michael --reclaimer debra",
        "setbench 1\ncallers 2\ncaller 0\ni 2\ns 2\nr 2\ni 4\ncaller 1\ni 3\nr 5\ns 3\nend\n",
        0,
        "set michael reclaimer debra callers 2 calls 7\ncaller 0\ni 2 yes\ns 2 yes\nr 2 yes\ni 4 yes\ncaller 1\ni 3 yes\nr 5 no\ns 3 yes\nsize 2 sum 7\nrecords drawn 3 reused 0 retired 1 freed 0 limbo 1 free 0 spare 0 spent 0\n",
    ),
    (
        "play --set michael --reclaimer debra",
        "setbench 2\ncallers 2\ncaller 0\ni 5\nphase\nr 7\ncaller 1\ni 7\nphase\ns 5\nend\n",
        0,
        "set michael reclaimer debra callers 2 calls 4\ncaller 0\ni 5 yes\nr 7 yes\ncaller 1\ni 7 yes\ns 5 yes\nsize 1 sum 5\nrecords drawn 2 reused 0 retired 1 freed 0 limbo 1 free 0 spare 0 spent 0\n",
    ),
    // With hazard pointers the sixth retirement of one caller scans, and keeps the record that its own word names.
    (
        "play --set michael --reclaimer hazard --buckets 1",
        "setbench 1\ncallers 1\ncaller 0\ni 1\nr 1\ni 2\nr 2\ni 3\nr 3\ni 4\nr 4\ni 5\nr 5\ni 6\nr 6\nend\n",
        0,
        "set michael reclaimer hazard callers 1 calls 12\ncaller 0\ni 1 yes\nr 1 yes\ni 2 yes\nr 2 yes\ni 3 yes\nr 3 yes\ni 4 yes\nr 4 yes\ni 5 yes\nr 5 yes\ni 6 yes\nr 6 yes\nsize 0 sum 0\nrecords drawn 6 reused 0 retired 6 freed 5 limbo 1 free 5 spare 0 spent 0\n",
    ),
    (
        "play --set michael --reclaimer hazard",
        "setbench 1\ncallers 2\ncaller 0\ni 2\ns 2\nr 2\ni 4\ncaller 1\ni 3\nr 5\ns 3\nend\n",
        0,
        "set michael reclaimer hazard callers 2 calls 7\ncaller 0\ni 2 yes\ns 2 yes\nr 2 yes\ni 4 yes\ncaller 1\ni 3 yes\nr 5 no\ns 3 yes\nsize 2 sum 7\nrecords drawn 3 reused 0 retired 1 freed 0 limbo 1 free 0 spare 0 spent 0\n",
    ),
    (
        "play --set michael --reclaimer hazard",
        "setbench 2\ncallers 2\ncaller 0\ni 5\nphase\nr 7\ncaller 1\ni 7\nphase\ns 5\nend\n",
        0,
        "set michael reclaimer hazard callers 2 calls 4\ncaller 0\ni 5 yes\nr 7 yes\ncaller 1\ni 7 yes\ns 5 yes\nsize 1 sum 5\nrecords drawn 2 reused 0 retired 1 freed 0 limbo 1 free 0 spare 0 spent 0\n",
    ),
    // Under 2GEIBR the sixteenth retirement of one caller scans, and keeps the record that was born after the sixteenth birth
    // moved the epoch on.
    (
        "play --set michael --reclaimer 2geibr --buckets 1",
        "setbench 1\ncallers 1\ncaller 0\ni 1\nr 1\ni 2\nr 2\ni 3\nr 3\ni 4\nr 4\ni 5\nr 5\ni 6\nr 6\ni 7\nr 7\ni 8\nr 8\ni 9\nr 9\ni 10\nr 10\ni 11\nr 11\ni 12\nr 12\ni 13\nr 13\ni 14\nr 14\ni 15\nr 15\ni 16\nr 16\nend\n",
        0,
        "set michael reclaimer 2geibr callers 1 calls 32\ncaller 0\ni 1 yes\nr 1 yes\ni 2 yes\nr 2 yes\ni 3 yes\nr 3 yes\ni 4 yes\nr 4 yes\ni 5 yes\nr 5 yes\ni 6 yes\nr 6 yes\ni 7 yes\nr 7 yes\ni 8 yes\nr 8 yes\ni 9 yes\nr 9 yes\ni 10 yes\nr 10 yes\ni 11 yes\nr 11 yes\ni 12 yes\nr 12 yes\ni 13 yes\nr 13 yes\ni 14 yes\nr 14 yes\ni 15 yes\nr 15 yes\ni 16 yes\nr 16 yes\nsize 0 sum 0\nrecords drawn 16 reused 0 retired 16 freed 15 limbo 1 free 15 spare 0 spent 0\n",
    ),
    (
        "play --set michael --reclaimer 2geibr",
        "setbench 1\ncallers 2\ncaller 0\ni 2\ns 2\nr 2\ni 4\ncaller 1\ni 3\nr 5\ns 3\nend\n",
        0,
        "set michael reclaimer 2geibr callers 2 calls 7\ncaller 0\ni 2 yes\ns 2 yes\nr 2 yes\ni 4 yes\ncaller 1\ni 3 yes\nr 5 no\ns 3 yes\nsize 2 sum 7\nrecords drawn 3 reused 0 retired 1 freed 0 limbo 1 free 0 spare 0 spent 0\n",
    ),
    (
        "play --set michael --reclaimer 2geibr",
        "setbench 2\ncallers 2\ncaller 0\ni 5\nphase\nr 7\ncaller 1\ni 7\nphase\ns 5\nend\n",
        0,
        "set michael reclaimer 2geibr callers 2 calls 4\ncaller 0\ni 5 yes\nr 7 yes\ncaller 1\ni 7 yes\ns 5 yes\nsize 1 sum 5\nrecords drawn 2 reused 0 retired 1 freed 0 limbo 1 free 0 spare 0 spent 0\n",
    ),
];

#[test]
fn plays_what_no_order_of_steps_changes(rt: HostRuntime) -> Result<(), Fail> {
    for (words, text, status, printed) in ROWS {
        let end = run_on(&rt, rt.alloc(), words, text.as_bytes())?;
        assert_eq!(rt; end.got.as_slice(), printed.as_bytes(), "{words}");
        assert_eq!(rt; end.status, status, "{words}");
        assert_eq!(rt; end.run.is_some(), status != 3, "{words}");
    }
    Ok(())
}

/// Trials, and what they print behind the first line. The numbers are those of another program, which draws the calls by
/// PCG's description and plays each caller's on a set of Python's.
const TRIALS: [(&str, &str); 7] = [
    (
        "trial --set michael --reclaimer none --callers 2 --calls 40 --keys 5 --seed 7",
        "trial michael none callers 2 calls 80\ninserted 16 removed 12 found 11\nsize 4 sum 17\n",
    ),
    (
        "trial --set michael --reclaimer none --callers 4 --calls 200 --keys 1000 --seed 7",
        "trial michael none callers 4 calls 800\ninserted 371 removed 13 found 12\nsize 358 sum 743185\n",
    ),
    (
        "trial --set michael --reclaimer none --callers 4 --calls 20000 --keys 1000 --seed 7",
        "trial michael none callers 4 calls 80000\ninserted 15022 removed 12384 found 12532\nsize 2638 sum 5208886\n",
    ),
    (
        "trial --set michael --reclaimer debra --callers 2 --calls 40 --keys 5 --seed 7",
        "trial michael debra callers 2 calls 80\ninserted 16 removed 12 found 11\nsize 4 sum 17\n",
    ),
    (
        "trial --set michael --reclaimer debra --callers 4 --calls 20000 --keys 1000 --seed 7",
        "trial michael debra callers 4 calls 80000\ninserted 15022 removed 12384 found 12532\nsize 2638 sum 5208886\n",
    ),
    (
        "trial --set michael --reclaimer hazard --callers 4 --calls 20000 --keys 1000 --seed 7",
        "trial michael hazard callers 4 calls 80000\ninserted 15022 removed 12384 found 12532\nsize 2638 sum 5208886\n",
    ),
    (
        "trial --set michael --reclaimer 2geibr --callers 4 --calls 20000 --keys 1000 --seed 7",
        "trial michael 2geibr callers 4 calls 80000\ninserted 15022 removed 12384 found 12532\nsize 2638 sum 5208886\n",
    ),
];

#[test]
fn trials_print_what_each_caller_is_told_alone(rt: HostRuntime) -> Result<(), Fail> {
    for (words, printed) in TRIALS {
        let end = run_on(&rt, rt.alloc(), words, b"")?;
        assert_eq!(rt; end.got.as_slice(), printed.as_bytes(), "{words}");
        assert_eq!(rt; end.status, 0, "{words}");
    }
    Ok(())
}

/// Words with a number just out of range, or with fewer records than buckets.
const REFUSED: [&str; 6] = [
    "play --set michael --reclaimer none --records 63",
    "play --set michael --reclaimer none --buckets 4096 --records 4095",
    "play --set michael --reclaimer none --buckets 0",
    "play --set michael --reclaimer none --buckets 4097",
    "play --set michael --reclaimer none --records 0 --buckets 1",
    "play --set michael --reclaimer none --records 1048576",
];

#[test]
fn words_are_refused_and_nothing_is_read(rt: HostRuntime) -> Result<(), Fail> {
    // A source that fails at its first call would be noticed.
    let faults = Faults {
        source: 1,
        sink: 0,
        most: 4096,
    };
    for words in REFUSED {
        let end = run_failing(&rt, rt.alloc(), words, b"", faults)?;
        assert_eq!(rt; end.status, 2, "{words}");
        assert_eq!(rt;
            end.got.as_slice(),
            b"setbench: words refused\n".as_slice(),
            "{words}"
        );
        assert!(rt; end.run.is_none(), "{words}");
    }
    Ok(())
}
