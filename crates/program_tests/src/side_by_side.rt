// Callers run at the same time, in each phase, and no phase begins before the one ahead of it has ended.

use crate::program::{DEBRA_WORDS, HAZARD_WORDS, IBR_WORDS, WORDS, run_with};
use outside::{Gate, MeetGate};
use std::sync::atomic::{AtomicBool, AtomicU32, Ordering};
use std::test::Fail;

const TWO: &str = "setbench 1\ncallers 2\ncaller 0\ni 1\ncaller 1\ni 2\ns 2\nend\n";

const FOUR: &str =
    "setbench 1\ncallers 4\ncaller 0\ni 1\ncaller 1\ni 2\ncaller 2\ni 3\ncaller 3\ni 4\nend\n";

const PHASES: &str =
    "setbench 2\ncallers 2\ncaller 0\ni 1\nphase\ni 3\ncaller 1\ni 2\nphase\ni 4\nend\n";

/// A workload, the call that is held up and the one that it waits for: each the numbers of a caller and of a call.
const ROWS: [(&str, (u32, u32), (u32, u32)); 8] = [
    // Each of two callers for the other one.
    (TWO, (0, 1), (1, 2)),
    (TWO, (1, 1), (0, 1)),
    // Those that a halving of four callers puts together, and those that it doesn't.
    (FOUR, (2, 1), (3, 1)),
    (FOUR, (3, 1), (2, 1)),
    (FOUR, (0, 1), (3, 1)),
    (FOUR, (3, 1), (0, 1)),
    // In the second phase.
    (PHASES, (0, 2), (1, 2)),
    (PHASES, (1, 2), (0, 2)),
];

#[test]
fn callers_wait_for_one_another(rt: HostRuntime) -> Result<(), Fail> {
    for (text, held, awaited) in ROWS {
        for words in [WORDS, DEBRA_WORDS, HAZARD_WORDS, IBR_WORDS] {
            let gate = MeetGate::new(held, awaited, 1_000_000_000);
            let end = run_with(&rt, rt.alloc(), &gate, words, text.as_bytes())?;
            assert_eq!(rt; end.status, 0, "{words} at {held:?}");
            assert!(rt; gate.met(), "{words} at {held:?}");
        }
    }
    Ok(())
}

#[test]
fn a_phase_waits_for_all_calls_ahead_of_it(rt: HostRuntime) -> Result<(), Fail> {
    for (held, awaited) in [((0, 1), (1, 2)), ((1, 1), (0, 2))] {
        let gate = MeetGate::new(held, awaited, 1_000_000);
        let end = run_with(&rt, rt.alloc(), &gate, WORDS, PHASES.as_bytes())?;
        assert_eq!(rt; end.status, 0, "at {held:?}");
        assert!(rt; !gate.met(), "at {held:?}");
    }
    Ok(())
}

/// Holds caller 0 up before its first call until the others have made so many calls, or for so many turns.
#[derive(Drop)]
struct HoldGate {
    wanted: u32,
    made: AtomicU32,
    met: AtomicBool,
}

impl Gate for HoldGate {
    fn before(&self, caller: u32, call: u32) {
        if (caller, call) != (0, 1) {
            return;
        }
        for _ in 0..1_000_000_000_u32 {
            if self.made.load(Ordering::SeqCst) == self.wanted {
                self.met.store(true, Ordering::SeqCst);
                return;
            }
        }
    }

    fn after(&self, caller: u32, _call: u32) {
        if caller != 0 {
            self.made.fetch_add(1, Ordering::SeqCst);
        }
    }
}

// The others make all their calls meanwhile, on the keys of the call that is held up, too.
#[test]
fn a_caller_that_is_stopped_holds_nobody_up(rt: HostRuntime) -> Result<(), Fail> {
    let text =
        "setbench 1\ncallers 3\ncaller 0\nr 1\ns 9\ncaller 1\ni 1\ni 9\ni 2\nr 2\ncaller 2\ni 65\nr 65\ni 129\nend\n";
    let gate = HoldGate {
        wanted: 7,
        made: AtomicU32::new(0),
        met: AtomicBool::new(false),
    };
    let end = run_with(&rt, rt.alloc(), &gate, WORDS, text.as_bytes())?;
    assert!(rt; gate.met.load(Ordering::SeqCst));
    assert_eq!(rt; end.status, 0);
    let report =
        "set michael reclaimer none callers 3 calls 9\ncaller 0\nr 1 yes\ns 9 yes\ncaller 1\ni 1 yes\ni 9 yes\ni 2 yes\nr 2 yes\ncaller 2\ni 65 yes\nr 65 yes\ni 129 yes\nsize 2 sum 138\nrecords drawn 5 reused 0 retired 3 freed 0 limbo 3 free 0 spare 0 spent 0\n";
    assert_eq!(rt; end.got.as_slice(), report.as_bytes());
    Ok(())
}
