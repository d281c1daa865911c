// The program over sources and sinks in memory.

use super::*;
use outside::{FreeGate, Gate, MeetGate, MemorySink, MemorySource, SteadySink, SteadySource};
use std::alloc::{AllocError, Global};
use std::sync::Wait;
use std::sync::atomic::{AtomicU32, Ordering};
use std::test::Fail;
use std::thread::Threads;

pub(crate) const COMMAND: [&str; 5] = ["play", "--set", "plain", "--reclaimer", "none"];

pub(crate) const WORKLOAD: &str =
    "setbench 1\ncallers 1\ncaller 0\ni 5\ni 5\ns 5\nr 5\nr 5\ns 5\nend\n";

pub(crate) const REPORT: &str =
    "set plain reclaimer none callers 1 calls 6\ncaller 0\ni 5 yes\ni 5 no\ns 5 yes\nr 5 yes\nr 5 no\ns 5 no\nsize 0 sum 0\nrecords drawn 0 reused 0 retired 0 freed 0 limbo 0 free 0 spare 0 spent 0\n";

pub(crate) fn words_of(alloc: Global, words: &[&str]) -> Result<Vec<String>, AllocError> {
    let mut all = Vec::new(alloc);
    for word in words {
        all.push(String::from_str(alloc, word)?)?;
    }
    Ok(all)
}

/// How a run ended, and what its sink got.
#[derive(Debug, Drop)]
pub(crate) struct Outcome {
    pub(crate) status: u8,
    pub(crate) has_run: bool,
    pub(crate) got: Vec<u8>,
}

/// Runs the program on bytes. The source and the sink fail at the calls that are listed, and the sink
/// takes at most `most` bytes at a call.
pub(crate) fn run_on<T: Threads + Wait + Sync>(
    rt: &T,
    alloc: Global,
    words: &[&str],
    bytes: &[u8],
    source_fails: &[u32],
    most: usize,
    sink_fails: &[u32],
) -> Result<Outcome, Fail> {
    let words = words_of(alloc, words)?;
    let mut source = MemorySource::new(bytes.to_vec(alloc)?, source_fails.to_vec(alloc)?);
    let room = Vec::with_capacity(alloc, 8192)?;
    let mut sink = MemorySink::new(room, most.max(1), sink_fails.to_vec(alloc)?);
    let ended = setbench(rt, alloc, &words, &mut source, &mut sink, &FreeGate);
    Ok(Outcome {
        status: ended.status,
        has_run: ended.run.is_some(),
        got: sink.got().to_vec(alloc)?,
    })
}

#[test]
fn plays_one_caller(rt: HostRuntime) -> Result<(), Fail> {
    for most in [1, 10, 100_000] {
        let end = run_on(
            &rt,
            rt.alloc(),
            &COMMAND,
            WORKLOAD.as_bytes(),
            &[],
            most,
            &[],
        )?;
        assert_eq!(rt; end.status, 0, "at {most}");
        assert!(rt; end.has_run, "at {most}");
        assert_eq!(rt; end.got.as_slice(), REPORT.as_bytes(), "at {most}");
    }
    Ok(())
}

/// Notes each `before` and `after` in order, in the places of an array.
#[derive(Drop)]
struct NotingGate {
    count: AtomicU32,
    notes: [AtomicU32; 12],
}

impl NotingGate {
    fn note(&self, after: u32, caller: u32, call: u32) {
        let place = self.count.fetch_add(1, Ordering::SeqCst) as usize;
        if place < 12 {
            let text = after
                .wrapping_add(caller.wrapping_mul(10))
                .wrapping_add(call.wrapping_mul(100));
            self.notes[place].store(text, Ordering::SeqCst);
        }
    }
}

impl Gate for NotingGate {
    fn before(&self, caller: u32, call: u32) {
        self.note(0, caller, call);
    }

    fn after(&self, caller: u32, call: u32) {
        self.note(1, caller, call);
    }
}

const PHASES: &str =
    "setbench 2\ncallers 2\ncaller 0\ns 1\nphase\ns 1\nr 2\ncaller 1\ni 1\nphase\ns 1\ni 1\nend\n";

#[test]
fn tells_the_gate_of_each_call_in_order(rt: HostRuntime) -> Result<(), Fail> {
    let alloc = rt.alloc();
    let gate = NotingGate {
        count: AtomicU32::new(0),
        notes: [
            AtomicU32::new(0),
            AtomicU32::new(0),
            AtomicU32::new(0),
            AtomicU32::new(0),
            AtomicU32::new(0),
            AtomicU32::new(0),
            AtomicU32::new(0),
            AtomicU32::new(0),
            AtomicU32::new(0),
            AtomicU32::new(0),
            AtomicU32::new(0),
            AtomicU32::new(0),
        ],
    };
    let words = words_of(alloc, &COMMAND)?;
    let mut source = SteadySource::new(PHASES.as_bytes().to_vec(alloc)?);
    let ended = setbench(
        &rt,
        alloc,
        &words,
        &mut source,
        &mut SteadySink::new(),
        &gate,
    );
    assert_eq!(rt; ended.status, 0);
    assert_eq!(rt; gate.count.load(Ordering::SeqCst), 12);
    // The call's number, the caller's, and 1 behind the call.
    let due = [100, 101, 110, 111, 200, 201, 300, 301, 210, 211, 310, 311];
    for (i, wanted) in due.iter().enumerate() {
        assert_eq!(rt; gate.notes[i].load(Ordering::SeqCst), *wanted, "place {i}");
    }
    Ok(())
}

// A call that is held up finds the awaited one made exactly where the order of play has it before: phase after phase,
// and in each phase caller after caller.
#[test]
fn plays_one_caller_after_another(rt: HostRuntime) -> Result<(), Fail> {
    let alloc = rt.alloc();
    let text = "setbench 1\ncallers 2\ncaller 0\ni 1\ncaller 1\ni 2\ns 2\nend\n";
    let rows = [
        (text, (0, 1), (1, 2), false),
        (text, (1, 1), (0, 1), true),
        (PHASES, (0, 1), (1, 1), false),
        (PHASES, (0, 2), (1, 1), true),
        (PHASES, (1, 1), (0, 2), false),
    ];
    let words = words_of(alloc, &COMMAND)?;
    for (text, held, awaited, meets) in rows {
        let gate = MeetGate::new(held, awaited, 100);
        let mut source = SteadySource::new(text.as_bytes().to_vec(alloc)?);
        let mut sink = SteadySink::new();
        let ended = setbench(&rt, alloc, &words, &mut source, &mut sink, &gate);
        assert_eq!(rt; ended.status, 0);
        assert_eq!(rt; gate.met(), meets, "at {held:?}");
    }
    Ok(())
}

#[test]
fn plays_phase_by_phase(rt: HostRuntime) -> Result<(), Fail> {
    let end = run_on(&rt, rt.alloc(), &COMMAND, PHASES.as_bytes(), &[], 4096, &[])?;
    assert_eq!(rt; end.status, 0);
    let report =
        "set plain reclaimer none callers 2 calls 6\ncaller 0\ns 1 no\ns 1 yes\nr 2 no\ncaller 1\ni 1 yes\ns 1 yes\ni 1 no\nsize 1 sum 1\nrecords drawn 0 reused 0 retired 0 freed 0 limbo 0 free 0 spare 0 spent 0\n";
    assert_eq!(rt; end.got.as_slice(), report.as_bytes());
    Ok(())
}

// What one caller does in the first phase, the other one finds in the second, also where it has no call there.
#[test]
fn finds_in_the_second_phase_what_the_first_left(rt: HostRuntime) -> Result<(), Fail> {
    let alloc = rt.alloc();
    let text = "setbench 2\ncallers 2\ncaller 0\ns 1\nphase\ns 1\ncaller 1\ni 1\nphase\nend\n";
    let end = run_on(&rt, alloc, &COMMAND, text.as_bytes(), &[], 4096, &[])?;
    assert_eq!(rt; end.status, 0);
    let report =
        "set plain reclaimer none callers 2 calls 3\ncaller 0\ns 1 no\ns 1 yes\ncaller 1\ni 1 yes\nsize 1 sum 1\nrecords drawn 0 reused 0 retired 0 freed 0 limbo 0 free 0 spare 0 spent 0\n";
    assert_eq!(rt; end.got.as_slice(), report.as_bytes());
    let end = run_on(&rt, alloc, &["check"], text.as_bytes(), &[], 4096, &[])?;
    assert_eq!(rt;
        end.got.as_slice(),
        b"ok callers 2 calls 3 phases 1\n".as_slice()
    );
    Ok(())
}

#[test]
fn other_commands(rt: HostRuntime) -> Result<(), Fail> {
    let alloc = rt.alloc();
    let end = run_on(&rt, alloc, &["check"], PHASES.as_bytes(), &[], 4096, &[])?;
    assert_eq!(rt; end.status, 0);
    assert_eq!(rt;
        end.got.as_slice(),
        b"ok callers 2 calls 6 phases 1\n".as_slice()
    );
    let end = run_on(&rt, alloc, &["check"], WORKLOAD.as_bytes(), &[], 4096, &[])?;
    assert_eq!(rt; end.got.as_slice(), b"ok callers 1 calls 6\n".as_slice());
    Ok(())
}

/// The words `generate` or those of a trial on the plain set, with these numbers behind them.
pub(crate) fn makes(
    alloc: Global,
    trial: bool,
    numbers: [&'static str; 4],
) -> Result<Vec<&'static str>, AllocError> {
    let mut words = Vec::new(alloc);
    if trial {
        words.extend_from_slice(&["trial", "--set", "plain", "--reclaimer", "none"])?;
    } else {
        words.push("generate")?;
    }
    for (name, number) in ["--callers", "--calls", "--keys", "--seed"]
        .iter()
        .zip(numbers)
    {
        words.push(*name)?;
        words.push(number)?;
    }
    Ok(words)
}

// The texts are those of another program, which draws the words by PCG's description and plays on a set of Python's.
#[test]
fn makes_and_plays_workloads(rt: HostRuntime) -> Result<(), Fail> {
    let alloc = rt.alloc();
    let rows = [
        (
            false,
            ["2", "0", "1", "7"],
            "setbench 1\ncallers 2\ncaller 0\ncaller 1\nend\n",
        ),
        (
            false,
            ["2", "4", "10", "7"],
            "setbench 1\ncallers 2\ncaller 0\ni 4\ns 14\ni 4\ni 14\ncaller 1\nr 13\ni 3\ni 3\ns 19\nend\n",
        ),
        (
            true,
            ["2", "40", "5", "7"],
            "trial plain none callers 2 calls 80\ninserted 16 removed 12 found 11\nsize 4 sum 17\n",
        ),
        (
            true,
            ["4", "20000", "1000", "7"],
            "trial plain none callers 4 calls 80000\ninserted 15022 removed 12384 found 12532\nsize 2638 sum 5208886\n",
        ),
        (
            true,
            ["4", "200", "1000", "7"],
            "trial plain none callers 4 calls 800\ninserted 371 removed 13 found 12\nsize 358 sum 743185\n",
        ),
    ];
    for (trial, numbers, text) in rows {
        // A source that fails at its first call would be noticed.
        let end = run_on(
            &rt,
            alloc,
            &makes(alloc, trial, numbers)?,
            b"",
            &[1],
            4096,
            &[],
        )?;
        assert_eq!(rt; end.status, 0, "at {numbers:?}");
        assert_eq!(rt; end.has_run, trial, "at {numbers:?}");
        assert_eq!(rt; end.got.as_slice(), text.as_bytes(), "at {numbers:?}");
    }
    Ok(())
}
