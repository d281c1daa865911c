// Callers run at the same time: one waits in its call until another one has made its own.
use hash_runs::play_hash_none;
use outside::MeetGate;
use std::alloc::Global;
use std::sync::Wait;
use std::test::Fail;
use std::thread::Threads;
use workload_text::read_workload;

// Whether the call that is held up meets the one that it waits for.
fn meets<R: Threads + Wait + Sync>(
    rt: &R,
    alloc: Global,
    text: &[u8],
    held: (u32, u32),
    awaited: (u32, u32),
) -> bool {
    let Ok(workload) = read_workload(alloc, text) else {
        return false;
    };
    let gate = MeetGate::new(held, awaited, 1_000_000_000);
    play_hash_none(alloc, rt, &gate, &workload, 100, 64).is_ok() && gate.met()
}

#[test]
fn callers_wait_for_one_another(rt: HostRuntime) -> Result<(), Fail> {
    let alloc = rt.alloc();
    // Each of two callers for the other one.
    let two = b"setbench 1\ncallers 2\ncaller 0\ni 1\ncaller 1\ni 2\ns 2\nend\n";
    assert!(rt; meets(&rt, alloc, two, (0, 1), (1, 2)));
    assert!(rt; meets(&rt, alloc, two, (1, 1), (0, 1)));

    // Those that a halving of four callers puts together.
    let four =
        b"setbench 1\ncallers 4\ncaller 0\ni 1\ncaller 1\ni 2\ncaller 2\ni 3\ncaller 3\ni 4\nend\n";
    assert!(rt; meets(&rt, alloc, four, (2, 1), (3, 1)));
    assert!(rt; meets(&rt, alloc, four, (3, 1), (2, 1)));
    Ok(())
}
