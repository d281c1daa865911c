//! Plays a workload on a set, and reports what became of it.
#![tactic(auto)]

use bench_core::{OUT_OF_MEMORY, setbench};
use outside::{FreeGate, StdSink, StdSource};
use std::alloc::AllocError;
use std::io::ErrorKind;
use std::process::ExitCode;
use std::rt::Env;
use std::{env, io};

/// The words of the command, without the program's name. Where they can't be fetched for another
/// cause than memory, as where one isn't UTF-8, there are none.
fn fetch_words<R: Env + AllocGlobal>(rt: &R) -> Result<Vec<String>, AllocError> {
    match env::args(rt) {
        Ok(words) => words.skip(1).collect(rt.alloc()),
        Err(error) if error.kind() == ErrorKind::OutOfMemory => Err(AllocError),
        Err(_) => Ok(Vec::new(rt.alloc())),
    }
}

fn main(rt: HostRuntime) -> ExitCode {
    let Ok(words) = fetch_words(&rt) else {
        return ExitCode::from(OUT_OF_MEMORY);
    };
    let mut source = StdSource::new(rt.reader());
    let mut sink = StdSink::new(io::writer(&rt));
    let ended = setbench(&rt, rt.alloc(), &words, &mut source, &mut sink, &FreeGate);
    ExitCode::from(ended.status)
}
