// Free records that go from one caller to another over the shelves of the pool. Phases follow one another, and in each of
// them only one caller has calls, so no order of steps changes replies or counts.

use crate::program::{Outcome, run_on};
use set_model::Counts;
use std::alloc::Global;
use std::sync::Wait;
use std::test::Fail;
use std::thread::Threads;

/// A phase: which of two callers has calls, their letter, the first key and the one behind the last key.
type Phase = (u32, &'static str, u64, u64);

/// Caller 1 only inserts, and caller 0 only removes. The first phase draws every record, so each later insertion has one that
/// caller 0 freed and gave: two phases take a chain of 32 each, and the last one finds none.
const PRODUCER: [Phase; 6] = [
    (1, "i", 0, 100),
    (0, "r", 0, 100),
    (1, "i", 100, 132),
    (0, "r", 100, 132),
    (1, "i", 132, 164),
    (1, "i", 164, 165),
];

/// Caller 0 frees more records than sixteen chains have, and caller 1 inserts as many as it finds records for.
const FULL: [Phase; 3] = [(0, "i", 0, 608), (0, "r", 0, 608), (1, "i", 1000, 1600)];

/// The workload with these phases.
fn text_of(alloc: Global, phases: &[Phase]) -> Result<Vec<u8>, Fail> {
    let mut text = b"setbench 2\ncallers 2\n".as_slice().to_vec(alloc)?;
    for caller in 0..2_u32 {
        let head = format!(in alloc; "caller {caller}\n")?;
        text.extend_from_slice(head.as_bytes())?;
        for (i, (own, letter, first, end)) in phases.iter().enumerate() {
            if i > 0 {
                text.extend_from_slice(b"phase\n")?;
            }
            if *own == caller {
                for key in *first..*end {
                    let call = format!(in alloc; "{letter} {key}\n")?;
                    text.extend_from_slice(call.as_bytes())?;
                }
            }
        }
    }
    text.extend_from_slice(b"end\n")?;
    Ok(text)
}

/// Plays these phases.
fn play<T: Threads + Wait + Sync>(
    rt: &T,
    alloc: Global,
    words: &str,
    phases: &[Phase],
) -> Result<Outcome, Fail> {
    let text = text_of(alloc, phases)?;
    run_on(rt, alloc, words, &text)
}

/// How the run ended: the status, how many keys there are, and the counts.
fn end_of(end: &Outcome) -> Option<(u8, u64, Counts)> {
    let run = end.run.as_ref()?;
    Some((end.status, run.report.size, run.report.counts))
}

#[test]
fn records_go_to_a_caller_that_frees_none(rt: HostRuntime) -> Result<(), Fail> {
    let words = "play --set michael --reclaimer debra --buckets 16 --records 116";
    let end = play(&rt, rt.alloc(), words, PRODUCER.as_slice())?;
    assert_eq!(rt;
        end_of(&end),
        Some((
            5,
            32,
            Counts {
                drawn: 100,
                reused: 64,
                retired: 132,
                freed: 126,
                limbo: 6,
                free: 62,
                spare: 0,
                spent: 0,
            }
        ))
    );
    Ok(())
}

// Sixteen shelves have 512 records, and what caller 0 frees beyond stays its own.
#[test]
fn sixteen_shelves_have_as_many_chains(rt: HostRuntime) -> Result<(), Fail> {
    let words = "play --set michael --reclaimer debra --buckets 64 --records 672";
    let end = play(&rt, rt.alloc(), words, FULL.as_slice())?;
    assert_eq!(rt;
        end_of(&end),
        Some((
            5,
            512,
            Counts {
                drawn: 608,
                reused: 512,
                retired: 608,
                freed: 602,
                limbo: 6,
                free: 90,
                spare: 0,
                spent: 0,
            }
        ))
    );
    Ok(())
}

// Records on shelves are counted as free.
#[test]
fn chains_on_shelves_are_free(rt: HostRuntime) -> Result<(), Fail> {
    let words = "play --set michael --reclaimer debra --buckets 64 --records 672";
    let end = play(&rt, rt.alloc(), words, &FULL.as_slice()[..2])?;
    assert_eq!(rt;
        end_of(&end),
        Some((
            0,
            0,
            Counts {
                drawn: 608,
                reused: 0,
                retired: 608,
                freed: 602,
                limbo: 6,
                free: 602,
                spare: 0,
                spent: 0,
            }
        ))
    );
    Ok(())
}
