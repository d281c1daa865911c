//! Where bytes come from and go to, behind traits that count their faults.
//!
//! A `Source` gives bytes and a `Sink` takes them. Each may fail at any call, and each keeps a count
//! of faults that never falls and that rises where a call fails: so a program that reports a read or
//! a write fault has to have met one. Those of this crate raise it nowhere else. Where a source or a
//! sink tells its bytes, contracts name them: the ones in memory do. Those over std's readers and
//! writers, the trusted edge, tell nothing as sources and sinks, but say what each call did with the
//! reader or the writer, where std tells the bytes of that.
#![tactic(auto)]

mod gate;
mod meet_gate;
mod memory_sink;
mod memory_source;
mod schedule;
mod sink;
mod source;
mod std_edge;
#[cfg(test)]
mod tests;

pub use gate::{FreeGate, Gate};
pub use meet_gate::MeetGate;
pub use memory_sink::{MemorySink, SteadySink};
pub use memory_source::{MemorySource, SteadySource};
pub use sink::{Putting, Sink};
pub use source::{Source, Taking};
pub use std_edge::{StdSink, StdSource};
