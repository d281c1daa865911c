// Texts as a reader sees them, and the pieces in which they are put.
use super::*;
use listed::Listed;
use outside::{MemorySink, Putting, Sink};
use set_model::{Call, Counts, ReclaimerName, Reply, SetName};
use std::alloc::Global;
use std::process::Abort;
use std::test::Fail;

const REPORT: &str =
    "set michael reclaimer 2geibr callers 3 calls 6\ncaller 0\ni 5 yes\ni 5 no\nr 1099511627773 no\ncaller 1\ncaller 2\ns 5 yes\nr 5 yes\ni 7 full\nsize 0 sum 0\nrecords drawn 1 reused 2 retired 3 freed 4 limbo 5 free 6 spare 7 spent 18446744073709551615\n";

const SUMMARY: &str =
    "trial michael 2geibr callers 3 calls 6\ninserted 1 removed 1 found 1\nsize 0 sum 0\n";

fn played(alloc: Global, calls: &[Call], replies: &[Reply]) -> Result<Played, Fail> {
    let calls = calls.to_vec(alloc)?;
    let mut told = replies.to_vec(alloc)?;
    told.resize(calls.len(), Reply::Full)?;
    Ok(Played {
        calls: Listed::of(calls),
        replies: Listed::of(told),
    })
}

fn report(alloc: Global) -> Result<Report, Fail> {
    let first = [
        Call::Insert(5),
        Call::Insert(5),
        Call::Remove(1_099_511_627_773),
    ];
    let last = [Call::Search(5), Call::Remove(5), Call::Insert(7)];
    let mut callers = Vec::new(alloc);
    callers.push(played(alloc, &first, &[Reply::Yes, Reply::No, Reply::No])?)?;
    callers.push(played(alloc, &[], &[])?)?;
    callers.push(played(alloc, &last, &[Reply::Yes, Reply::Yes, Reply::Full])?)?;
    Ok(Report {
        set: SetName::Michael,
        reclaimer: ReclaimerName::Ibr,
        callers: Listed::of(callers),
        size: 0,
        sum: 0,
        counts: Counts {
            drawn: 1,
            reused: 2,
            retired: 3,
            freed: 4,
            limbo: 5,
            free: 6,
            spare: 7,
            spent: u64::MAX,
        },
    })
}

/// A sink with room for 4,096 bytes, which takes at most `most` at a call and fails at the calls of
/// these numbers.
fn sink_of(alloc: Global, most: usize, failing: &[u32]) -> Result<MemorySink, Fail> {
    let room = Vec::with_capacity(alloc, 4096)?;
    Ok(MemorySink::new(room, most.max(1), failing.to_vec(alloc)?))
}

#[test]
fn report_of_three_callers(rt: HostRuntime) -> Result<(), Fail> {
    let report = report(rt.alloc())?;
    for most in [1, 10, 4096] {
        let mut sink = sink_of(rt.alloc(), most, &[])?;
        assert_eq!(rt;
            print_report(&report, &mut sink),
            Printed::Done,
            "at {most}"
        );
        assert_eq!(rt; sink.got(), REPORT.as_bytes(), "at {most}");
    }
    Ok(())
}

#[test]
fn summary_of_three_callers(rt: HostRuntime) -> Result<(), Fail> {
    let report = report(rt.alloc())?;
    let mut sink = sink_of(rt.alloc(), 4096, &[])?;
    assert_eq!(rt; print_summary(&report, &mut sink), Printed::Done);
    assert_eq!(rt; sink.got(), SUMMARY.as_bytes());
    Ok(())
}

#[test]
fn stops_at_the_third_put(rt: HostRuntime) -> Result<(), Fail> {
    let report = report(rt.alloc())?;
    let mut sink = sink_of(rt.alloc(), 10, &[3])?;
    assert_eq!(rt; print_report(&report, &mut sink), Printed::WriteFault);
    assert_eq!(rt; sink.got(), b"set michael reclaime".as_slice());
    let mut sink = sink_of(rt.alloc(), 10, &[1])?;
    assert_eq!(rt; print_line("words", &mut sink), Printed::WriteFault);
    assert!(rt; sink.got().is_empty());
    Ok(())
}

#[test]
fn lines(rt: HostRuntime) -> Result<(), Fail> {
    let mut sink = sink_of(rt.alloc(), 4096, &[])?;
    let sizes = Checked {
        callers: 64,
        calls: 1_000_000,
        phases: None,
    };
    let phased = Checked {
        callers: 1,
        calls: 0,
        phases: Some(1_000),
    };
    assert_eq!(rt; print_checked(sizes, &mut sink), Printed::Done);
    assert_eq!(rt; print_checked(phased, &mut sink), Printed::Done);
    assert_eq!(rt; print_line("one", &mut sink), Printed::Done);
    assert_eq!(rt; print_text(b"two\nthree\n", &mut sink), Printed::Done);
    let wanted =
        b"ok callers 64 calls 1000000\nok callers 1 calls 0 phases 1000\none\ntwo\nthree\n";
    assert_eq!(rt; sink.got(), wanted.as_slice());
    Ok(())
}

#[test]
fn refusals(rt: HostRuntime) -> Result<(), Fail> {
    let lazy = Refusal::Pair {
        set: SetName::Lazy,
        reclaimer: ReclaimerName::Hazard,
    };
    let plain = Refusal::Pair {
        set: SetName::Plain,
        reclaimer: ReclaimerName::Debra,
    };
    let rows = [
        (Refusal::Words, "setbench: words refused\n"),
        (lazy, "setbench: lazy under hazard is not lawful\n"),
        (plain, "setbench: plain under debra is not lawful\n"),
        (Refusal::TooLong, "setbench: workload too long\n"),
        (
            Refusal::Workload(WorkloadRefusal::Header),
            "setbench: workload refused: line 1: header\n",
        ),
        (
            Refusal::Workload(WorkloadRefusal::Callers),
            "setbench: workload refused: line 2: callers\n",
        ),
        (
            Refusal::Workload(WorkloadRefusal::BadLine { line: 4 }),
            "setbench: workload refused: line 4: bad line\n",
        ),
        (
            Refusal::Workload(WorkloadRefusal::KeyRange { line: 5 }),
            "setbench: workload refused: line 5: key out of range\n",
        ),
        (
            Refusal::Workload(WorkloadRefusal::NoEnd),
            "setbench: workload refused: no end\n",
        ),
        (
            Refusal::Workload(WorkloadRefusal::TooManyCalls { line: 1_000_004 }),
            "setbench: workload refused: line 1000004: too many calls\n",
        ),
    ];
    for (refusal, wanted) in rows {
        let mut sink = sink_of(rt.alloc(), 4096, &[])?;
        assert_eq!(rt; print_refusal(refusal, &mut sink), Printed::Done);
        assert_eq!(rt; sink.got(), wanted.as_bytes(), "of {refusal:?}");
    }
    Ok(())
}

/// Takes each piece whole, and keeps the length of each.
#[derive(Drop)]
struct Lengths {
    put: [usize; 8],
    count: usize,
}

impl Sink for Lengths {
    ghost use Rattle.std.specs.Prelude.{None};

    ghost got = { λ _. None };

    ghost faults = { λ _. 0 };

    fn put(&mut self, piece: &[u8]) -> Putting {
        if self.count < 8 {
            self.put[self.count] = piece.len();
            self.count += 1;
        }
        Putting::Took(piece.len())
    }
}

fn no_lengths() -> Lengths {
    Lengths {
        put: [0; 8],
        count: 0,
    }
}

/// Compares the lengths of what was put with these.
fn put_as(rt: &impl Abort, sink: &Lengths, wanted: &[usize]) {
    assert_eq!(rt; sink.count, wanted.len());
    for (i, length) in wanted.iter().enumerate() {
        assert!(rt; i < 8);
        assert_eq!(rt; sink.put[i], *length, "at put {i}");
    }
}

#[test]
fn puts_when_the_buffer_is_full_and_at_the_end(rt: HostRuntime) -> Result<(), Fail> {
    for (length, wanted) in [
        (0, [].as_slice()),
        (1, [1].as_slice()),
        (4_096, [4_096].as_slice()),
        (4_097, [4_096, 1].as_slice()),
        (10_000, [4_096, 4_096, 1_808].as_slice()),
    ] {
        let mut text = Vec::new(rt.alloc());
        text.resize(length, b'x')?;
        let mut sink = no_lengths();
        assert_eq!(rt; print_text(&text, &mut sink), Printed::Done);
        put_as(&rt, &sink, wanted);
    }
    // 1,000 lines `s 7 no`, and 165 bytes around them.
    let mut calls = Vec::new(rt.alloc());
    calls.resize(1_000, Call::Search(7))?;
    let mut replies = Vec::new(rt.alloc());
    replies.resize(1_000, Reply::No)?;
    let mut long = report(rt.alloc())?;
    let mut callers = Vec::new(rt.alloc());
    callers.push(played(rt.alloc(), &calls, &replies)?)?;
    long.callers = Listed::of(callers);
    let mut sink = no_lengths();
    assert_eq!(rt; print_report(&long, &mut sink), Printed::Done);
    put_as(&rt, &sink, &[4_096, 3_069]);
    Ok(())
}
