// Callers that share keys. What each is told depends on the order of their steps, so what must hold of all replies together
// is tested: each key was added as often as it was taken away, or once more; and the sizes and counts are those of the
// replies.

use crate::program::{Outcome, run_on};
use bench_core::Run;
use set_model::{Call, Counts, ReclaimerName, Reply};
use std::alloc::{AllocError, Global};
use std::test::Fail;

/// How often insertions and removals of keys took effect, and how often an insertion was told `full`.
#[derive(Debug, Drop)]
struct Effects {
    /// Of each key how often it was added and taken away.
    of_keys: Vec<(u64, u64)>,
    /// How many replies were `full`.
    full: u64,
}

/// What the replies of a run say of the keys below `keys`.
fn effects_of(alloc: Global, run: &Run, keys: u32) -> Result<Effects, AllocError> {
    let mut of_keys = Vec::new(alloc);
    of_keys.resize(keys as usize, (0_u64, 0_u64))?;
    let mut full = 0_u64;
    for played in run.report.callers.as_slice() {
        for (call, reply) in played
            .calls
            .as_slice()
            .iter()
            .zip(played.replies.as_slice())
        {
            match (call, reply) {
                (Call::Insert(key), Reply::Yes) => {
                    if let Some(times) = of_keys.get_mut(*key as usize) {
                        times.0 = times.0.saturating_add(1);
                    }
                }
                (Call::Remove(key), Reply::Yes) => {
                    if let Some(times) = of_keys.get_mut(*key as usize) {
                        times.1 = times.1.saturating_add(1);
                    }
                }
                (_, Reply::Full) => full = full.saturating_add(1),
                _ => {}
            }
        }
    }
    Ok(Effects { of_keys, full })
}

/// How many keys there are by these effects, their sum, and how often a key was added and taken away. None where some key
/// wasn't added as often as it was taken away, or once more.
fn totals_of(effects: &Effects) -> Option<(u64, u64, u64, u64)> {
    let (mut size, mut sum, mut added, mut removed) = (0_u64, 0_u64, 0_u64, 0_u64);
    for (key, times) in effects.of_keys.iter().enumerate() {
        match times.0.checked_sub(times.1)? {
            0 => {}
            1 => {
                size = size.saturating_add(1);
                sum = sum.saturating_add(key as u64);
            }
            _ => return None,
        }
        added = added.saturating_add(times.0);
        removed = removed.saturating_add(times.1);
    }
    Some((size, sum, added, removed))
}

/// Whether the counts can be those of a run in which keys were added and taken away so often: a record was handed out,
/// new or again, for each key that was added and for each that waits unused; what was retired is in limbo or was freed,
/// and what was freed was handed out again, is free or spent. A record that was taken away may be linked still, where no
/// caller came by since. Without reclamation none was freed.
fn fit(reclaimer: ReclaimerName, counts: Counts, added: u64, removed: u64) -> bool {
    let handed_out = counts.drawn.saturating_add(counts.reused);
    let freed = counts
        .reused
        .saturating_add(counts.free)
        .saturating_add(counts.spent);
    handed_out == added.saturating_add(counts.spare)
        && counts.retired <= removed
        && counts.limbo.saturating_add(counts.freed) == counts.retired
        && counts.freed == freed
        && (counts.freed == 0 || reclaimer != ReclaimerName::Nothing)
}

/// Whether all holds that must, of a run on keys below `keys`.
fn holds(alloc: Global, end: &Outcome, keys: u32) -> Result<bool, AllocError> {
    let Some(run) = &end.run else {
        return Ok(false);
    };
    let effects = effects_of(alloc, run, keys)?;
    let Some((size, sum, added, removed)) = totals_of(&effects) else {
        return Ok(false);
    };
    let status = if effects.full == 0 { 0 } else { 5 };
    Ok(
        (run.report.size, run.report.sum) == (size, sum)
            && fit(run.report.reclaimer, run.report.counts, added, removed)
            && end.status == status,
    )
}

/// Words that make a workload with shared keys, how many keys there are, and words that play it.
const ROWS: [(&str, u32, &str); 14] = [
    (
        "generate --callers 2 --calls 2000 --keys 2 --seed 1 --shared yes",
        2,
        "play --set michael --reclaimer none --buckets 1",
    ),
    (
        "generate --callers 4 --calls 2000 --keys 10 --seed 2 --shared yes",
        10,
        "play --set michael --reclaimer none --buckets 1",
    ),
    (
        "generate --callers 4 --calls 2000 --keys 1000 --seed 3 --shared yes",
        1000,
        "play --set michael --reclaimer none",
    ),
    (
        "generate --callers 16 --calls 500 --keys 50 --seed 4 --shared yes",
        50,
        "play --set michael --reclaimer none --buckets 7",
    ),
    (
        "generate --callers 64 --calls 100 --keys 1 --seed 5 --shared yes",
        1,
        "play --set michael --reclaimer none",
    ),
    (
        "generate --callers 64 --calls 100 --keys 100 --seed 6 --shared yes",
        100,
        "play --set michael --reclaimer none --buckets 4096",
    ),
    (
        "generate --callers 2 --calls 2000 --keys 2 --seed 1 --shared yes",
        2,
        "play --set michael --reclaimer debra --buckets 1",
    ),
    (
        "generate --callers 4 --calls 2000 --keys 10 --seed 2 --shared yes",
        10,
        "play --set michael --reclaimer debra --buckets 1",
    ),
    (
        "generate --callers 16 --calls 500 --keys 50 --seed 4 --shared yes",
        50,
        "play --set michael --reclaimer debra --buckets 7",
    ),
    (
        "generate --callers 64 --calls 100 --keys 100 --seed 6 --shared yes",
        100,
        "play --set michael --reclaimer debra",
    ),
    (
        "generate --callers 4 --calls 2000 --keys 10 --seed 2 --shared yes",
        10,
        "play --set michael --reclaimer hazard --buckets 1",
    ),
    (
        "generate --callers 16 --calls 500 --keys 50 --seed 4 --shared yes",
        50,
        "play --set michael --reclaimer hazard --buckets 7",
    ),
    (
        "generate --callers 4 --calls 2000 --keys 10 --seed 2 --shared yes",
        10,
        "play --set michael --reclaimer 2geibr --buckets 1",
    ),
    (
        "generate --callers 16 --calls 500 --keys 50 --seed 4 --shared yes",
        50,
        "play --set michael --reclaimer 2geibr --buckets 7",
    ),
];

#[test]
fn each_key_is_added_and_taken_away_in_turn(rt: HostRuntime) -> Result<(), Fail> {
    let alloc = rt.alloc();
    for (made, keys, played) in ROWS {
        let text = run_on(&rt, alloc, made, b"")?;
        assert_eq!(rt; text.status, 0, "{made}");
        let end = run_on(&rt, alloc, played, &text.got)?;
        assert_eq!(rt; end.status, 0, "{made}");
        assert!(rt; holds(alloc, &end, keys)?, "{made}");
    }
    Ok(())
}

// 50 keys are asked to be added, and there are 19 records for them: each is drawn, and some call is told `full`.
#[test]
fn callers_without_records_are_told_so(rt: HostRuntime) -> Result<(), Fail> {
    let alloc = rt.alloc();
    let made = "generate --callers 4 --calls 500 --keys 50 --seed 7 --shared yes";
    let text = run_on(&rt, alloc, made, b"")?;
    let words = "play --set michael --reclaimer none --buckets 1 --records 20";
    let end = run_on(&rt, alloc, words, &text.got)?;
    assert_eq!(rt; end.status, 5);
    assert!(rt; holds(alloc, &end, 50)?);
    let run = end.run.as_ref().ok_or("a run")?;
    assert_eq!(rt; run.report.counts.drawn, 19);
    Ok(())
}

// So few records are used again and again: without that, 12 of them would be all that is ever added under DEBRA, 39 with
// hazard pointers, where each caller keeps up to eleven until it scans, and 99 under 2GEIBR, where it keeps up to 15 and what
// its last scan kept.
#[test]
fn few_records_are_used_again(rt: HostRuntime) -> Result<(), Fail> {
    let alloc = rt.alloc();
    let made = "generate --callers 2 --calls 2000 --keys 4 --seed 7 --shared yes";
    let text = run_on(&rt, alloc, made, b"")?;
    for words in [
        "play --set michael --reclaimer debra --buckets 1 --records 13",
        "play --set michael --reclaimer hazard --buckets 1 --records 40",
        "play --set michael --reclaimer 2geibr --buckets 1 --records 100",
    ] {
        let end = run_on(&rt, alloc, words, &text.got)?;
        assert!(rt; holds(alloc, &end, 4)?, "{words}");
        let run = end.run.as_ref().ok_or("a run")?;
        assert!(rt; run.report.counts.reused > 0, "{words}");
    }
    Ok(())
}

// One of two callers adds the key. The other one may have drawn a record for it, too.
#[test]
fn one_of_two_callers_adds_a_key(rt: HostRuntime) -> Result<(), Fail> {
    let alloc = rt.alloc();
    let text = b"setbench 1\ncallers 2\ncaller 0\ni 9\ncaller 1\ni 9\nend\n";
    let end = run_on(&rt, alloc, "play --set michael --reclaimer none", text)?;
    assert_eq!(rt; end.status, 0);
    assert!(rt; holds(alloc, &end, 10)?);
    let run = end.run.as_ref().ok_or("a run")?;
    assert_eq!(rt; (run.report.size, run.report.sum), (1, 9));
    let Counts { drawn, spare, .. } = run.report.counts;
    assert!(rt; (drawn, spare) == (1, 0) || (drawn, spare) == (2, 1));
    Ok(())
}

// A workload in which each of so many callers adds key 0.
fn all_add_key_0(alloc: Global, callers: u32) -> Result<Vec<u8>, Fail> {
    let head = format!(in alloc; "setbench 1\ncallers {callers}\n")?;
    let mut text = head.as_bytes().to_vec(alloc)?;
    for caller in 0..callers {
        let lines = format!(in alloc; "caller {caller}\ni 0\n")?;
        text.extend_from_slice(lines.as_bytes())?;
    }
    text.extend_from_slice(b"end\n")?;
    Ok(text)
}

#[test]
fn one_of_64_callers_adds_a_key(rt: HostRuntime) -> Result<(), Fail> {
    let alloc = rt.alloc();
    let text = all_add_key_0(alloc, 64)?;
    for words in [
        "play --set michael --reclaimer none",
        "play --set michael --reclaimer none --buckets 1",
    ] {
        let end = run_on(&rt, alloc, words, &text)?;
        assert_eq!(rt; end.status, 0, "{words}");
        assert!(rt; holds(alloc, &end, 1)?, "{words}");
        let run = end.run.as_ref().ok_or("a run")?;
        assert_eq!(rt; run.report.size, 1, "{words}");
    }
    Ok(())
}
