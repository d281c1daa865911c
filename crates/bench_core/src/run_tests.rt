// The commands, each by itself, without words.

use super::*;
use crate::tests::{REPORT, WORKLOAD};
use lawful_pairs::Pair;
use outside::{FreeGate, MemorySink, MemorySource};
use set_model::{AllocatorName, ReclaimerName, SetName};
use std::alloc::Global;
use std::test::Fail;
use workload_gen::GenPlan;

fn source_of(alloc: Global, bytes: &[u8], fails: &[u32]) -> Result<MemorySource, Fail> {
    Ok(MemorySource::new(bytes.to_vec(alloc)?, fails.to_vec(alloc)?))
}

fn sink_of(alloc: Global, fails: &[u32]) -> Result<MemorySink, Fail> {
    let room = Vec::with_capacity(alloc, 1000)?;
    Ok(MemorySink::new(room, 10, fails.to_vec(alloc)?))
}

#[test]
fn checks_a_source(rt: HostRuntime) -> Result<(), Fail> {
    let refused = "setbench: workload refused: line 1: header\n";
    let rows = [
        (WORKLOAD, 0, 0, 0, "ok callers 1 calls 6\n"),
        ("setbench 3\n", 0, 0, 3, refused),
        (WORKLOAD, 2, 0, 6, ""),
        (WORKLOAD, 0, 2, 7, "ok callers"),
    ];
    for (text, source_fails, sink_fails, status, got) in rows {
        let mut source = source_of(rt.alloc(), text.as_bytes(), &[source_fails])?;
        let mut sink = sink_of(rt.alloc(), &[sink_fails])?;
        assert_eq!(rt; check_run(rt.alloc(), &mut source, &mut sink), status);
        assert_eq!(rt; sink.got(), got.as_bytes());
    }
    Ok(())
}

#[test]
fn generates_a_plan(rt: HostRuntime) -> Result<(), Fail> {
    let plan = GenPlan {
        callers: 2,
        calls: 4,
        keys: 10,
        seed: 7,
        shared: true,
    };
    let text =
        "setbench 1\ncallers 2\ncaller 0\ni 2\ns 7\ni 2\ni 7\ncaller 1\nr 6\ni 1\ni 1\ns 9\nend\n";
    let mut sink = sink_of(rt.alloc(), &[])?;
    assert_eq!(rt; generate_run(rt.alloc(), &plan, &mut sink), 0);
    assert_eq!(rt; sink.got(), text.as_bytes());
    let mut sink = sink_of(rt.alloc(), &[2])?;
    assert_eq!(rt; generate_run(rt.alloc(), &plan, &mut sink), 7);
    assert_eq!(rt; sink.got(), b"setbench 1".as_slice());
    Ok(())
}

#[test]
fn plays_by_settings(rt: HostRuntime) -> Result<(), Fail> {
    let settings = Settings {
        pair: Pair {
            set: SetName::Plain,
            reclaimer: ReclaimerName::Nothing,
        },
        allocator: AllocatorName::Bump,
        buckets: 64,
        chosen: None,
    };
    for (fails, status, got) in [(0, 0, REPORT), (3, 7, "set plain reclaimer ")] {
        let mut source = source_of(rt.alloc(), WORKLOAD.as_bytes(), &[])?;
        let mut sink = sink_of(rt.alloc(), &[fails])?;
        let ended = play_run(&rt, rt.alloc(), settings, &mut source, &mut sink, &FreeGate);
        assert_eq!(rt; ended.status, status);
        assert!(rt; ended.run.is_some());
        assert_eq!(rt; sink.got(), got.as_bytes());
    }
    Ok(())
}

#[test]
fn tries_a_plan(rt: HostRuntime) -> Result<(), Fail> {
    let pair = Pair {
        set: SetName::Plain,
        reclaimer: ReclaimerName::Nothing,
    };
    let plan = GenPlan {
        callers: 2,
        calls: 40,
        keys: 5,
        seed: 7,
        shared: false,
    };
    let text =
        "trial plain none callers 2 calls 80\ninserted 16 removed 12 found 11\nsize 4 sum 17\n";
    for (fails, status, got) in [(0, 0, text), (3, 7, "trial plain none cal")] {
        let mut sink = sink_of(rt.alloc(), &[fails])?;
        let ended = trial_run(&rt, rt.alloc(), pair, &plan, &mut sink, &FreeGate);
        assert_eq!(rt; ended.status, status);
        assert!(rt; ended.run.is_some());
        assert_eq!(rt; sink.got(), got.as_bytes());
    }
    Ok(())
}
