// What the sources and sinks answer, call by call. That each failure raises a count is proved.
use crate::{
    FreeGate, Gate, MeetGate, MemorySink, MemorySource, Putting, Sink, Source, StdSink, StdSource,
    SteadySink, SteadySource, Taking,
};
use std::alloc::Global;
use std::process::Abort;
use std::sync::atomic::{AtomicBool, Ordering};
use std::test::Fail;
use std::{io, thread};

/// An answer of a source, and the bytes that it gave.
type Given = (Taking, &'static [u8]);

/// A piece that a sink is to take bytes of, and its answer.
type Put = (&'static [u8], Putting);

/// Takes pieces of three bytes, and compares each answer and the bytes given with those of the row.
fn takes_as(rt: &impl Abort, source: &mut impl Source, rows: &[Given]) {
    for (i, (answer, bytes)) in rows.iter().enumerate() {
        let mut piece = [0u8; 3];
        let taking = source.take(&mut piece);
        assert_eq!(rt; taking, *answer, "at row {i}");
        if let Taking::Bytes(count) = taking {
            assert_eq!(rt; &piece[..count], *bytes, "at row {i}");
        }
    }
}

/// Puts the piece of each row, which isn't empty, and compares the answer with the row's.
fn puts_as(rt: &impl Abort, sink: &mut impl Sink, rows: &[Put]) {
    for (i, (piece, answer)) in rows.iter().enumerate() {
        assert!(rt; !piece.is_empty());
        assert_eq!(rt; sink.put(piece), *answer, "at row {i}");
    }
}

#[test]
fn memory_source(rt: HostRuntime) -> Result<(), Fail> {
    let bytes = Vec::from_slice(rt.alloc(), b"abcdefg")?;
    let mut source = MemorySource::new(bytes, vec![in rt.alloc(); 2, 6]?);
    let rows: [Given; 7] = [
        (Taking::Bytes(3), b"abc"),
        (Taking::Failed, b""),
        (Taking::Bytes(3), b"def"),
        (Taking::Bytes(1), b"g"),
        (Taking::End, b""),
        (Taking::Failed, b""),
        (Taking::End, b""),
    ];
    takes_as(&rt, &mut source, &rows);
    Ok(())
}

#[test]
fn steady_source(rt: HostRuntime) -> Result<(), Fail> {
    let mut source = SteadySource::new(Vec::from_slice(rt.alloc(), b"abcd")?);
    let rows: [Given; 4] = [
        (Taking::Bytes(3), b"abc"),
        (Taking::Bytes(1), b"d"),
        (Taking::End, b""),
        (Taking::End, b""),
    ];
    takes_as(&rt, &mut source, &rows);
    Ok(())
}

#[test]
fn memory_sink(rt: HostRuntime) -> Result<(), Fail> {
    let room = Vec::with_capacity(rt.alloc(), 6)?;
    let mut sink = MemorySink::new(room, 3, vec![in rt.alloc(); 2]?);
    let rows: [Put; 5] = [
        (b"abcd", Putting::Took(3)),
        (b"d", Putting::Failed),
        (b"d", Putting::Took(1)),
        // The capacity is used up by the first two.
        (b"efg", Putting::Took(2)),
        (b"g", Putting::Failed),
    ];
    puts_as(&rt, &mut sink, &rows);
    assert_eq!(rt; sink.got(), b"abcdef".as_slice());
    Ok(())
}

#[test]
fn steady_sink(rt: HostRuntime) {
    let rows: [Put; 2] = [(b"abcd", Putting::Took(4)), (b"e", Putting::Took(1))];
    puts_as(&rt, &mut SteadySink::new(), &rows);
}

/// The bytes of `left`, two at a call, but for one call, which fails.
#[derive(Drop)]
struct FailsOnce {
    left: &'static [u8],
    calls: u32,
}

impl io::Read for FailsOnce {
    fn read(&mut self, buf: &mut [u8]) -> io::Result<usize> {
        self.calls = self.calls.saturating_add(1);
        if self.calls == 2 {
            return Err(io::Error::from(io::ErrorKind::TimedOut));
        }
        let count = self.left.len().min(buf.len()).min(2);
        let (front, rest) = self.left.split_at(count);
        buf[..count].copy_from_slice(front);
        self.left = rest;
        Ok(count)
    }
}

#[test]
fn std_source(rt: HostRuntime) {
    let mut source = StdSource::new(b"abcd".as_slice());
    let rows: [Given; 4] = [
        (Taking::Bytes(3), b"abc"),
        (Taking::Bytes(1), b"d"),
        (Taking::End, b""),
        (Taking::End, b""),
    ];
    takes_as(&rt, &mut source, &rows);

    let (left, calls) = (b"abc".as_slice(), 0);
    let mut source = StdSource::new(FailsOnce { left, calls });
    let rows: [Given; 4] = [
        (Taking::Bytes(2), b"ab"),
        (Taking::Failed, b""),
        (Taking::Bytes(1), b"c"),
        (Taking::End, b""),
    ];
    takes_as(&rt, &mut source, &rows);
}

/// A writer that keeps the length of its last write, fails at its second call and takes nothing at
/// its third.
#[derive(Drop)]
struct Stumbles {
    calls: u32,
}

impl io::Write for Stumbles {
    fn write(&mut self, buf: &[u8]) -> io::Result<usize> {
        self.calls = self.calls.saturating_add(1);
        match self.calls {
            2 => Err(io::Error::from(io::ErrorKind::TimedOut)),
            3 => Ok(0),
            _ => Ok(buf.len().min(2)),
        }
    }

    fn flush(&mut self) -> io::Result<()> {
        Ok(())
    }
}

#[test]
fn std_sink(rt: HostRuntime) {
    let mut bytes = Vec::new(rt.alloc());
    let rows: [Put; 2] = [(b"abcd", Putting::Took(4)), (b"e", Putting::Took(1))];
    puts_as(&rt, &mut StdSink::new(&mut bytes), &rows);
    assert_eq!(rt; bytes.as_slice(), b"abcde".as_slice());

    let rows: [Put; 5] = [
        (b"abc", Putting::Took(2)),
        (b"c", Putting::Failed),
        (b"c", Putting::Failed),
        (b"c", Putting::Took(1)),
        (b"de", Putting::Took(2)),
    ];
    puts_as(&rt, &mut StdSink::new(Stumbles { calls: 0 }), &rows);
}

#[test]
fn free_gate() {
    let gate = FreeGate;
    gate.before(0, 1);
    gate.after(0, 1);
}

/// Makes the call at the gate, with nothing in it.
fn pass(gate: &impl Gate, caller: u32, call: u32) {
    gate.before(caller, call);
    gate.after(caller, call);
}

// Calls that come one after another, as on one thread.
#[test]
fn meet_gate_in_turn(rt: HostRuntime) {
    // The awaited call comes first, and then others that share a number with it or with the one that is held up.
    let gate = MeetGate::new((0, 1), (1, 2), 3);
    for (caller, call) in [(1, 1), (2, 2), (1, 2), (0, 2), (1, 1)] {
        pass(&gate, caller, call);
        assert!(rt; !gate.met());
    }
    pass(&gate, 0, 1);
    assert!(rt; gate.met());

    // It comes too late: the wait ends by itself.
    let gate = MeetGate::new((0, 1), (1, 2), 1000);
    for (caller, call) in [(0, 1), (1, 1), (1, 2), (0, 2)] {
        pass(&gate, caller, call);
        assert!(rt; !gate.met());
    }

    // The awaited call has begun, and isn't made yet.
    let gate = MeetGate::new((0, 1), (1, 1), 3);
    gate.before(1, 1);
    pass(&gate, 0, 1);
    assert!(rt; !gate.met());

    // With no turn it doesn't look.
    let gate = MeetGate::new((0, 1), (1, 1), 0);
    pass(&gate, 1, 1);
    pass(&gate, 0, 1);
    assert!(rt; !gate.met());
}

// Where the wait ended in time, what the other thread did ahead of its `after` is seen. The wait ends in every schedule.
#[test]
fn meet_gate_between_threads(rt: HostRuntime) {
    let gate = MeetGate::new((0, 1), (1, 1), 1_000_000_000);
    let (shared, made) = (&gate, &AtomicBool::new(false));
    let (seen, _) = thread::join(
        &rt,
        || {
            shared.before(0, 1);
            made.load(Ordering::SeqCst)
        },
        || {
            shared.before(1, 1);
            made.store(true, Ordering::SeqCst);
            shared.after(1, 1);
        },
    );
    assert!(rt; seen || !gate.met());
}
