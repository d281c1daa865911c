// The program at its faults, in pieces, and on more bytes than a workload has.
ghost use Rattle.std.specs.Prelude.{None};

use super::*;
use crate::tests::{COMMAND, REPORT, WORKLOAD, makes, run_on, words_of};
use outside::{FreeGate, MemorySink, Source, Taking};
use std::test::Fail;

const LENGTH_LINE: &str = "setbench: workload too long\n";

// A workload of 5,937 bytes is two pieces of 4,096 bytes, of which the last is shorter.
#[test]
fn reads_and_prints_in_pieces(rt: HostRuntime) -> Result<(), Fail> {
    let alloc = rt.alloc();
    let words = makes(alloc, false, ["1", "1000", "1000", "7"])?;
    let whole = run_on(&rt, alloc, &words, b"", &[], 100_000, &[])?;
    assert_eq!(rt; whole.got.len(), 5_937);
    let rows = [(1, 7, 0), (2, 7, 4096), (3, 0, 5_937)];
    for (fails, status, length) in rows {
        let end = run_on(&rt, alloc, &words, b"", &[], 100_000, &[fails])?;
        assert_eq!(rt; end.status, status, "at {fails}");
        assert_eq!(rt; end.got.len(), length, "at {fails}");
    }
    // The last call finds the end.
    let rows = [(1, 6), (2, 6), (3, 6), (4, 0)];
    for (fails, status) in rows {
        let end = run_on(&rt, alloc, &["check"], &whole.got, &[fails], 4096, &[])?;
        assert_eq!(rt; end.status, status, "at {fails}");
    }
    Ok(())
}

const TWO_CALLERS: &str =
    "setbench 1\ncallers 2\ncaller 0\ni 2\ns 2\nr 2\ni 4\ncaller 1\ni 3\nr 5\ns 3\nend\n";

const THEIR_REPORT: &str =
    "set plain reclaimer none callers 2 calls 7\ncaller 0\ni 2 yes\ns 2 yes\nr 2 yes\ni 4 yes\ncaller 1\ni 3 yes\nr 5 no\ns 3 yes\nsize 2 sum 7\nrecords drawn 0 reused 0 retired 0 freed 0 limbo 0 free 0 spare 0 spent 0\n";

// A source is called twice: it gives the bytes, and ends.
#[test]
fn each_take_fails_in_turn(rt: HostRuntime) -> Result<(), Fail> {
    let bytes = TWO_CALLERS.as_bytes();
    let rows = [(1, 6, ""), (2, 6, ""), (3, 0, THEIR_REPORT)];
    for (fails, status, text) in rows {
        let end = run_on(&rt, rt.alloc(), &COMMAND, bytes, &[fails], 10, &[])?;
        assert_eq!(rt; end.status, status, "at {fails}");
        assert_eq!(rt; end.got.as_slice(), text.as_bytes(), "at {fails}");
        assert_eq!(rt; end.has_run, status == 0, "at {fails}");
    }
    Ok(())
}

// One caller's workload: the second take fails, and then the third put of at most ten bytes.
#[test]
fn one_take_or_one_put_fails(rt: HostRuntime) -> Result<(), Fail> {
    let bytes = WORKLOAD.as_bytes();
    let end = run_on(&rt, rt.alloc(), &COMMAND, bytes, &[2], 10, &[])?;
    assert_eq!(rt; end.status, 6);
    assert!(rt; end.got.is_empty());
    let end = run_on(&rt, rt.alloc(), &COMMAND, bytes, &[], 10, &[3])?;
    assert_eq!(rt; end.status, 7);
    assert_eq!(rt; end.got.as_slice(), b"set plain reclaimer ".as_slice());
    let end = run_on(&rt, rt.alloc(), &COMMAND, bytes, &[], 10, &[])?;
    assert_eq!(rt; end.status, 0);
    assert_eq!(rt; end.got.as_slice(), REPORT.as_bytes());
    Ok(())
}

#[test]
fn each_put_fails_in_turn(rt: HostRuntime) -> Result<(), Fail> {
    let bytes = TWO_CALLERS.as_bytes();
    let report = THEIR_REPORT.as_bytes();
    for puts in 0..40_u32 {
        let got = puts as usize * 10;
        let end = run_on(&rt, rt.alloc(), &COMMAND, bytes, &[], 10, &[puts + 1])?;
        if got < report.len() {
            assert_eq!(rt; end.status, 7, "after {puts}");
            assert_eq!(rt; end.got.len(), got, "after {puts}");
            assert!(rt; report.starts_with(&end.got), "after {puts}");
        } else {
            assert_eq!(rt; end.status, 0, "after {puts}");
            assert_eq!(rt; end.got.as_slice(), report, "after {puts}");
        }
        assert!(rt; end.has_run, "after {puts}");
    }
    Ok(())
}

// The line of a refusal is put in pieces, too.
#[test]
fn each_put_of_a_refusal_fails_in_turn(rt: HostRuntime) -> Result<(), Fail> {
    let line = b"setbench: workload refused: no end\n".as_slice();
    for puts in 0..4_u32 {
        let end = run_on(&rt, rt.alloc(), &["check"], b"", &[], 10, &[puts + 1])?;
        assert_eq!(rt; end.status, 7, "after {puts}");
        assert_eq!(rt; end.got.len(), puts as usize * 10, "after {puts}");
        assert!(rt; line.starts_with(&end.got), "after {puts}");
        assert!(rt; !end.has_run, "after {puts}");
    }
    Ok(())
}

/// Gives this many bytes, in pieces that begin with a line feed. It tells nothing of them.
#[derive(Drop)]
struct ManyBytes {
    left: usize,
}

impl Source for ManyBytes {
    ghost left = { λ _. None };

    ghost faults = { λ _. 0 };

    fn take(&mut self, into: &mut [u8]) -> Taking {
        let count = into.len().min(self.left);
        if count == 0 {
            return Taking::End;
        }
        into[0] = b'\n';
        self.left -= count;
        Taking::Bytes(count)
    }
}

#[test]
fn refuses_a_workload_that_is_too_long(rt: HostRuntime) -> Result<(), Fail> {
    let alloc = rt.alloc();
    let rows = [
        (
            67_108_864,
            3,
            "setbench: workload refused: line 1: header\n",
        ),
        (67_108_865, 9, LENGTH_LINE),
    ];
    for (left, status, line) in rows {
        let words = words_of(alloc, &["check"])?;
        let room = Vec::with_capacity(alloc, 100)?;
        let mut sink = MemorySink::new(room, 100, Vec::new(alloc));
        let mut source = ManyBytes { left };
        let ended = setbench(&rt, alloc, &words, &mut source, &mut sink, &FreeGate);
        assert_eq!(rt; ended.status, status, "at {left}");
        assert_eq!(rt; sink.got(), line.as_bytes(), "at {left}");
    }
    Ok(())
}
