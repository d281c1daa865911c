// A source that fails, and a sink that fails while the report of a run is printed.

use crate::program::{Faults, WORDS, run_failing, run_on};
use std::test::Fail;

const TEXT: &str =
    "setbench 1\ncallers 2\ncaller 0\ni 2\ns 2\nr 2\ni 4\ncaller 1\ni 3\nr 5\ns 3\nend\n";

// A source is called twice: it gives the bytes, and ends.
#[test]
fn nothing_is_played_of_a_source_that_fails(rt: HostRuntime) -> Result<(), Fail> {
    for (source, status) in [(1, 6), (2, 6), (3, 0)] {
        let faults = Faults {
            source,
            sink: 0,
            most: 4096,
        };
        let end = run_failing(&rt, rt.alloc(), WORDS, TEXT.as_bytes(), faults)?;
        assert_eq!(rt; end.status, status, "at {source}");
        assert_eq!(rt; end.run.is_some(), status == 0, "at {source}");
        assert_eq!(rt; end.got.is_empty(), status == 6, "at {source}");
    }
    Ok(())
}

#[test]
fn a_run_is_told_of_though_its_report_is_cut_off(rt: HostRuntime) -> Result<(), Fail> {
    let alloc = rt.alloc();
    let whole = run_on(&rt, alloc, WORDS, TEXT.as_bytes())?;
    for puts in 0..30_u32 {
        let got = puts as usize * 10;
        let faults = Faults {
            source: 0,
            sink: puts + 1,
            most: 10,
        };
        let end = run_failing(&rt, alloc, WORDS, TEXT.as_bytes(), faults)?;
        if got < whole.got.len() {
            assert_eq!(rt; end.status, 7, "after {puts}");
            assert_eq!(rt; end.got.len(), got, "after {puts}");
        } else {
            assert_eq!(rt; end.status, 0, "after {puts}");
            assert_eq!(rt; end.got.len(), whole.got.len(), "after {puts}");
        }
        assert!(rt; whole.got.starts_with(&end.got), "after {puts}");
        assert!(rt; end.run.is_some(), "after {puts}");
    }
    Ok(())
}
