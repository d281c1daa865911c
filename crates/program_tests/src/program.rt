// The program over sources and sinks in memory.

use bench_core::{Ended, Run, setbench};
use outside::{FreeGate, Gate, MemorySink, MemorySource};
use std::alloc::{AllocError, Global};
use std::sync::Wait;
use std::test::Fail;
use std::thread::Threads;

/// A play on the hash table, with as many records as its workload needs.
pub const WORDS: &str = "play --set michael --reclaimer none";

/// The same under DEBRA.
pub const DEBRA_WORDS: &str = "play --set michael --reclaimer debra";

/// The same with hazard pointers.
pub const HAZARD_WORDS: &str = "play --set michael --reclaimer hazard";

/// The same under 2GEIBR.
pub const IBR_WORDS: &str = "play --set michael --reclaimer 2geibr";

/// How a run ended, and what its sink got.
#[derive(Drop)]
pub struct Outcome {
    pub status: u8,
    pub run: Option<Run>,
    pub got: Vec<u8>,
}

/// How a source and a sink fail: at the call with this number each, from 1, or never with 0. The sink takes at most
/// `most` bytes at a call.
#[derive(Clone, Copy)]
pub struct Faults {
    pub source: u32,
    pub sink: u32,
    pub most: usize,
}

/// The words of a line, a blank between two.
fn words_in(alloc: Global, line: &str) -> Result<Vec<String>, AllocError> {
    let mut words = Vec::new(alloc);
    for word in line.split(' ') {
        words.push(String::from_str(alloc, word)?)?;
    }
    Ok(words)
}

/// Runs the program with the words of this line on this text.
fn run_at<T: Threads + Wait + Sync, G: Gate + Sync>(
    rt: &T,
    alloc: Global,
    gate: &G,
    line: &str,
    text: &[u8],
    faults: Faults,
) -> Result<Outcome, Fail> {
    let words = words_in(alloc, line)?;
    let source_fails = [faults.source].as_slice().to_vec(alloc)?;
    let sink_fails = [faults.sink].as_slice().to_vec(alloc)?;
    let mut source = MemorySource::new(text.to_vec(alloc)?, source_fails);
    let room = Vec::with_capacity(alloc, 1_000_000)?;
    let mut sink = MemorySink::new(room, faults.most.max(1), sink_fails);
    let Ended { status, run } = setbench(rt, alloc, &words, &mut source, &mut sink, gate);
    Ok(Outcome {
        status,
        run,
        got: sink.got().to_vec(alloc)?,
    })
}

/// Runs the program at this gate.
pub fn run_with<T: Threads + Wait + Sync, G: Gate + Sync>(
    rt: &T,
    alloc: Global,
    gate: &G,
    line: &str,
    text: &[u8],
) -> Result<Outcome, Fail> {
    let faults = Faults {
        source: 0,
        sink: 0,
        most: 4096,
    };
    run_at(rt, alloc, gate, line, text, faults)
}

/// Runs the program.
pub fn run_on<T: Threads + Wait + Sync>(
    rt: &T,
    alloc: Global,
    line: &str,
    text: &[u8],
) -> Result<Outcome, Fail> {
    run_with(rt, alloc, &FreeGate, line, text)
}

/// Runs the program on a source and a sink that fail so.
pub fn run_failing<T: Threads + Wait + Sync>(
    rt: &T,
    alloc: Global,
    line: &str,
    text: &[u8],
    faults: Faults,
) -> Result<Outcome, Fail> {
    run_at(rt, alloc, &FreeGate, line, text, faults)
}
