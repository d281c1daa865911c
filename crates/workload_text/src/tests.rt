use super::*;
use set_model::Call;
use std::alloc::{AllocError, Global};
use std::test::*;

const ONE: &[u8] = b"setbench 1\ncallers 1\ncaller 0\n";

const PHASED: &[u8] =
    b"setbench 2\ncallers 2\ncaller 0\ni 5\nphase\nr 7\ncaller 1\ni 7\nphase\ns 5\nend\n";

#[test]
fn one_phase(rt: HostRuntime) -> Result<(), Fail> {
    let text = b"setbench 1\ncallers 1\ncaller 0\ni 5\ni 5\ns 5\nr 5\nr 5\ns 5\nend\n";
    let workload = read_workload(rt.alloc(), text)?;
    assert_eq!(rt; workload.version(), 1);
    assert_eq!(rt; workload.callers(), 1);
    assert_eq!(rt; workload.phases(), 0);
    assert_eq!(rt; workload.total(), 6);
    assert_eq!(rt; workload.calls_in(0, 0).len(), 6);
    let again = write_workload(rt.alloc(), &workload)?;
    assert_eq!(rt; again.as_slice(), text.as_slice());
    let calls = [
        Call::Insert(5),
        Call::Insert(5),
        Call::Search(5),
        Call::Remove(5),
        Call::Remove(5),
        Call::Search(5),
    ];
    let lists = workload.into_lists();
    assert_eq!(rt; lists.len(), 1);
    assert_eq!(rt; lists[0].as_slice(), calls.as_slice());
    let mut made = Vec::new(rt.alloc());
    made.push(calls.to_vec(rt.alloc())?)?;
    let same = Workload::of(made);
    let once_more = write_workload(rt.alloc(), &same)?;
    assert_eq!(rt; once_more.as_slice(), text.as_slice());
    Ok(())
}

#[test]
fn two_phases(rt: HostRuntime) -> Result<(), Fail> {
    let workload = read_workload(rt.alloc(), PHASED)?;
    assert_eq!(rt; workload.version(), 2);
    assert_eq!(rt; workload.callers(), 2);
    assert_eq!(rt; workload.phases(), 1);
    assert_eq!(rt; workload.total(), 4);
    assert_eq!(rt; workload.calls_in(0, 1), [Call::Remove(7)].as_slice());
    assert_eq!(rt; workload.calls_in(1, 0), [Call::Insert(7)].as_slice());
    let all = [Call::Insert(5), Call::Remove(7)];
    assert_eq!(rt; workload.calls_of(0), all.as_slice());
    let again = write_workload(rt.alloc(), &workload)?;
    assert_eq!(rt; again.as_slice(), PHASED);
    Ok(())
}

#[test]
fn two_phases_made(rt: HostRuntime) -> Result<(), Fail> {
    let alloc = rt.alloc();
    let mut first = Vec::new(alloc);
    first.push([Call::Insert(5)].to_vec(alloc)?)?;
    first.push([Call::Remove(7)].to_vec(alloc)?)?;
    let mut second = Vec::new(alloc);
    second.push([Call::Insert(7)].to_vec(alloc)?)?;
    second.push([Call::Search(5)].to_vec(alloc)?)?;
    let mut callers = Vec::new(alloc);
    callers.push(first)?;
    callers.push(second)?;
    let workload = Workload::with_phases(alloc, callers)?;
    assert_eq!(rt; workload.version(), 2);
    assert_eq!(rt; workload.phases(), 1);
    let text = write_workload(alloc, &workload)?;
    assert_eq!(rt; text.as_slice(), PHASED);
    Ok(())
}

fn refusal(alloc: Global, head: &[u8], rest: &[u8]) -> Result<Option<WorkloadError>, AllocError> {
    let mut text = Vec::new(alloc);
    text.extend_from_slice(head)?;
    text.extend_from_slice(rest)?;
    Ok(read_workload(alloc, &text).err())
}

#[test]
fn refusals(rt: HostRuntime) -> Result<(), Fail> {
    let bad = |line: u32| WorkloadError::BadLine { line };
    let key = |line: u32| WorkloadError::KeyRange { line };
    let rows = [
        (b"".as_slice(), b"".as_slice(), WorkloadError::NoEnd),
        (ONE, b"i 5\n".as_slice(), WorkloadError::NoEnd),
        (ONE, b"end".as_slice(), WorkloadError::NoEnd),
        (
            b"setbench 3\n".as_slice(),
            b"".as_slice(),
            WorkloadError::Header { line: 1 },
        ),
        (
            b"setbench 1\r\n".as_slice(),
            b"".as_slice(),
            WorkloadError::Header { line: 1 },
        ),
        (
            b"setbench 1\ncallers 65\n".as_slice(),
            b"".as_slice(),
            WorkloadError::Callers { line: 2 },
        ),
        (
            b"setbench 1\ncallers 0\n".as_slice(),
            b"".as_slice(),
            WorkloadError::Callers { line: 2 },
        ),
        (
            b"setbench 1\ncallers 01\n".as_slice(),
            b"".as_slice(),
            WorkloadError::Callers { line: 2 },
        ),
        (
            b"setbench 1\ncallers 2\ncaller 1\n".as_slice(),
            b"".as_slice(),
            bad(3),
        ),
        (
            b"setbench 1\ncallers 2\ncaller 0\nend\n".as_slice(),
            b"".as_slice(),
            bad(4),
        ),
        (ONE, b"caller 0\nend\n".as_slice(), bad(4)),
        (ONE, b"phase\nend\n".as_slice(), bad(4)),
        (ONE, b"end\nx".as_slice(), bad(5)),
        (ONE, b"end\n\n".as_slice(), bad(5)),
        (ONE, b"i 5\r\nend\n".as_slice(), bad(4)),
        (ONE, b"i 5 \nend\n".as_slice(), bad(4)),
        (ONE, b"i\t5\nend\n".as_slice(), bad(4)),
        (ONE, b"i 05\nend\n".as_slice(), bad(4)),
        (ONE, b"i +5\nend\n".as_slice(), bad(4)),
        (ONE, b"i -0\nend\n".as_slice(), bad(4)),
        (ONE, b"i\nend\n".as_slice(), bad(4)),
        (ONE, b"I 5\nend\n".as_slice(), bad(4)),
        (ONE, b"\0end\n".as_slice(), bad(4)),
        (ONE, b"i \xff\nend\n".as_slice(), bad(4)),
        (ONE, b"\nend\n".as_slice(), bad(4)),
        (ONE, b"s 5\ni 1099511627774\nend\n".as_slice(), key(5)),
        (
            ONE,
            b"r 9999999999999999999999999999999999999999\nend\n".as_slice(),
            key(4),
        ),
        (
            b"setbench 2\ncallers 2\ncaller 0\nphase\ncaller 1\nend\n".as_slice(),
            b"".as_slice(),
            bad(6),
        ),
        (
            b"setbench 2\ncallers 2\ncaller 0\ncaller 1\nphase\nend\n".as_slice(),
            b"".as_slice(),
            bad(5),
        ),
        (
            b"setbench 2\ncallers 3\ncaller 0\nphase\ncaller 1\ncaller 2\n".as_slice(),
            b"".as_slice(),
            bad(6),
        ),
        (
            b"setbench 2\ncallers 2\ncaller 0\nphase\ncaller 1\nphase\ni 5\nphase\nend\n".as_slice(),
            b"".as_slice(),
            bad(8),
        ),
        (
            b"setbench 1\ncallers 2\ncaller 0\ncaller 2\nend\n".as_slice(),
            b"".as_slice(),
            bad(4),
        ),
        (
            b"setbench 1\ncallers 2\ncaller 0\ncaller 01\nend\n".as_slice(),
            b"".as_slice(),
            bad(4),
        ),
        (
            b"setbench 0\n".as_slice(),
            b"".as_slice(),
            WorkloadError::Header { line: 1 },
        ),
    ];
    for (i, (head, rest, error)) in rows.iter().enumerate() {
        assert_eq!(rt; refusal(rt.alloc(), head, rest)?, Some(*error), "row {i}");
    }
    Ok(())
}

#[test]
fn the_most_callers(rt: HostRuntime) -> Result<(), Fail> {
    let mut text = Vec::new(rt.alloc());
    text.extend_from_slice(b"setbench 1\ncallers 64\n")?;
    for caller in 0..64_u32 {
        let line = format!(in rt.alloc(); "caller {caller}\n")?;
        text.extend_from_slice(line.as_bytes())?;
    }
    text.extend_from_slice(b"end\n")?;
    let workload = read_workload(rt.alloc(), &text)?;
    assert_eq!(rt; workload.callers(), 64);
    assert_eq!(rt; workload.total(), 0);
    let again = write_workload(rt.alloc(), &workload)?;
    assert_eq!(rt; again, text);
    Ok(())
}

/// A text of version 2 and one caller, with so many lines `phase`.
fn phased(alloc: Global, lines: u32) -> Result<Vec<u8>, AllocError> {
    let mut text = Vec::new(alloc);
    text.extend_from_slice(b"setbench 2\ncallers 1\ncaller 0\n")?;
    for _ in 0..lines {
        text.extend_from_slice(b"phase\n")?;
    }
    text.extend_from_slice(b"end\n")?;
    Ok(text)
}

#[test]
fn a_thousand_lines_phase(rt: HostRuntime) -> Result<(), Fail> {
    let most = phased(rt.alloc(), 1_000)?;
    assert_eq!(rt; read_workload(rt.alloc(), &most)?.phases(), 1_000);
    let above = phased(rt.alloc(), 1_001)?;
    let bad = Some(WorkloadError::BadLine { line: 1_004 });
    assert_eq!(rt; read_workload(rt.alloc(), &above).err(), bad);
    Ok(())
}

fn searches(alloc: Global, count: u32, last: &[u8]) -> Result<Vec<u8>, AllocError> {
    let mut text = Vec::new(alloc);
    text.extend_from_slice(ONE)?;
    for _ in 0..count {
        text.extend_from_slice(b"s 1\n")?;
    }
    text.extend_from_slice(last)?;
    Ok(text)
}

#[test]
fn a_million_calls(rt: HostRuntime) -> Result<(), Fail> {
    let full = searches(rt.alloc(), 1_000_000, b"end\n")?;
    assert_eq!(rt; read_workload(rt.alloc(), &full)?.total(), 1_000_000);
    let above = searches(rt.alloc(), 1_000_001, b"end\n")?;
    let line = 1_000_004;
    let many = Some(WorkloadError::TooManyCalls { line });
    assert_eq!(rt; read_workload(rt.alloc(), &above).err(), many);
    let large = searches(rt.alloc(), 1_000_000, b"i 1099511627774\n")?;
    let key = Some(WorkloadError::KeyRange { line });
    assert_eq!(rt; read_workload(rt.alloc(), &large).err(), key);
    Ok(())
}
