// Where callers share no key, the hash table answers what the plain set does, whatever the order of steps and the number of
// buckets.

use crate::program::run_on;
use bench_core::Run;
use std::alloc::Global;
use std::sync::Wait;
use std::test::Fail;
use std::thread::Threads;

/// Whether both runs told the same: the same replies to the same calls, the same number of keys and the same sum.
fn tell_the_same(one: &Run, other: &Run) -> bool {
    let (one, other) = (&one.report, &other.report);
    if (one.size, one.sum) != (other.size, other.sum) {
        return false;
    }
    let (ones, others) = (one.callers.as_slice(), other.callers.as_slice());
    if ones.len() != others.len() {
        return false;
    }
    for (played, same) in ones.iter().zip(others) {
        if played.calls.as_slice() != same.calls.as_slice()
            || played.replies.as_slice() != same.replies.as_slice()
        {
            return false;
        }
    }
    true
}

/// Whether the text, played by these words and on a plain set, is told the same.
fn agrees<T: Threads + Wait + Sync>(
    rt: &T,
    alloc: Global,
    line: &str,
    text: &[u8],
) -> Result<bool, Fail> {
    let plain = run_on(rt, alloc, "play --set plain --reclaimer none", text)?;
    let hash = run_on(rt, alloc, line, text)?;
    match (&plain.run, &hash.run) {
        (Some(one), Some(other)) => Ok(tell_the_same(one, other)),
        _ => Ok(false),
    }
}

/// Words that make a workload without shared keys, and words that play it on the hash table.
const ROWS: [(&str, &str); 11] = [
    (
        "generate --callers 1 --calls 1000 --keys 20 --seed 1",
        "play --set michael --reclaimer none --buckets 1",
    ),
    (
        "generate --callers 2 --calls 1000 --keys 20 --seed 2",
        "play --set michael --reclaimer none --buckets 1",
    ),
    (
        "generate --callers 4 --calls 1000 --keys 100 --seed 3",
        "play --set michael --reclaimer none --buckets 3",
    ),
    (
        "generate --callers 16 --calls 500 --keys 100 --seed 4",
        "play --set michael --reclaimer none",
    ),
    (
        "generate --callers 64 --calls 100 --keys 10 --seed 5",
        "play --set michael --reclaimer none",
    ),
    (
        "generate --callers 64 --calls 100 --keys 268435456 --seed 6",
        "play --set michael --reclaimer none --buckets 4096",
    ),
    (
        "generate --callers 4 --calls 1000 --keys 100 --seed 3",
        "play --set michael --reclaimer debra --buckets 3",
    ),
    (
        "generate --callers 64 --calls 100 --keys 10 --seed 5",
        "play --set michael --reclaimer debra",
    ),
    (
        "generate --callers 4 --calls 1000 --keys 100 --seed 3",
        "play --set michael --reclaimer hazard --buckets 3",
    ),
    (
        "generate --callers 4 --calls 1000 --keys 100 --seed 3",
        "play --set michael --reclaimer 2geibr --buckets 3",
    ),
    (
        "generate --callers 64 --calls 100 --keys 10 --seed 5",
        "play --set michael --reclaimer 2geibr",
    ),
];

#[test]
fn callers_without_shared_keys_are_told_what_a_plain_set_tells(
    rt: HostRuntime,
) -> Result<(), Fail> {
    let alloc = rt.alloc();
    for (made, played) in ROWS {
        let text = run_on(&rt, alloc, made, b"")?;
        assert_eq!(rt; text.status, 0, "{made}");
        assert!(rt; agrees(&rt, alloc, played, &text.got)?, "{made}");
    }
    Ok(())
}

#[test]
fn trials_print_the_same_of_64_callers(rt: HostRuntime) -> Result<(), Fail> {
    let alloc = rt.alloc();
    let plain = "trial --set plain --reclaimer none --callers 64 --calls 1000 --keys 100 --seed 7";
    let hash = "trial --set michael --reclaimer none --callers 64 --calls 1000 --keys 100 --seed 7";
    let plain = run_on(&rt, alloc, plain, b"")?;
    let hash = run_on(&rt, alloc, hash, b"")?;
    let head = b"trial plain none callers 64 calls 64000\n".as_slice();
    let rest = plain.got.strip_prefix(head).ok_or("a first line")?;
    let head = b"trial michael none callers 64 calls 64000\n".as_slice();
    assert_eq!(rt; hash.got.strip_prefix(head).ok_or("a first line")?, rest);
    assert_eq!(rt; (plain.status, hash.status), (0, 0));
    Ok(())
}
