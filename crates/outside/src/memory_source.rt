// Sources over bytes in memory.
ghost use Rattle.std.specs.Prelude.{◌≡◌, ℕ, ◌+◌, ◌<◌, ◌≤◌, ◌↔◌, ◌≢◌, Some, Contains, [], ◌++◌, length, min, take, drop};
ghost use Rattle.outside.specs.Bytes.{with_front};
ghost use Rattle.outside.specs.Faults.{one_more};
ghost use Rattle.outside.specs.Taking.{IfBytes, OnEnd, OnFailed};

use crate::schedule::Schedule;
use crate::source::{Source, Taking};
use std::marker::Model;

/// Bytes in memory, and how many of them were given.
#[derive(Drop)]
struct Given {
    bytes: Vec<u8>,
    count: usize,
    ghost within: { count ≤ length bytes.items },
}

impl Given {
    /// Writes as many of the bytes that are left as fit, and says how many these are.
    fn fill(&mut self, into: &mut [u8]) -> usize
        requires { 0 < length into.old }
        ensures most { result ≡ min (length (drop self.old.count self.old.bytes.items)) (length into.old) }
        ensures next { drop self.old.count self.old.bytes.items
            ≡ take result into.new ++ drop self.new.count self.new.bytes.items }
    {
        let left = &self.bytes[self.count..];
        let count = left.len().min(into.len());
        into[..count].copy_from_slice(&left[..count]);
        self.count += count;
        count
    }
}

/// A source over bytes in memory that never fails.
#[derive(Drop)]
pub struct SteadySource {
    given: Given,
}

impl Model for SteadySource {
    ghost use Rattle.std.specs.Prelude.{ℕ, List, drop};

    ghost Value = { List ℕ };

    ghost view = { λ s. drop s.given.count s.given.bytes.items };
}

impl SteadySource {
    /// Gives `bytes`, as many at a call as fit.
    pub fn new(bytes: Vec<u8>) -> Self
        ensures { result ≡ bytes.items }
    {
        SteadySource {
            given: Given { bytes, count: 0 },
        }
    }
}

impl Source for SteadySource {
    ghost left = { λ s. Some s };

    ghost faults = { λ _. 0 };

    fn take(&mut self, into: &mut [u8]) -> Taking
        requires room { 0 < length into.old }
        ensures some { IfBytes result (λ n. 0 < n) }
        ensures most { IfBytes result (λ n. n ≡ min (length self.old) (length into.old)) }
        ensures within { IfBytes result (λ n. n ≤ length into.new) }
        ensures given { IfBytes result (λ n. self.old ≡ take n into.new ++ self.new) }
        ensures end { OnEnd result (self.old ≡ []) }
        ensures end_kept { OnEnd result (self.new ≡ self.old) }
        ensures steady { result ≢ Taking.Failed }
    {
        match self.given.fill(into) {
            0 => Taking::End,
            count => Taking::Bytes(count),
        }
    }
}

/// A source over bytes in memory, which fails at chosen calls and at no others.
#[derive(Drop)]
pub struct MemorySource {
    bytes: SteadySource,
    schedule: Schedule,
}

impl Model for MemorySource {
    ghost use Rattle.outside.specs.Memory.{SourceState};

    ghost Value = { SourceState };

    ghost view = { λ s. record {
      left = s.bytes;
      failing = s.schedule.failing.items;
      calls = s.schedule.calls;
      faults = s.schedule.faults;
    } };
}

impl MemorySource {
    /// Gives `bytes`, as many at a call as fit, and fails at the calls whose numbers, from 1, are in
    /// `failing`; 0 is the number of none. A call that fails gives nothing, and the next goes on.
    pub fn new(bytes: Vec<u8>, failing: Vec<u32>) -> Self
        ensures left { result.left ≡ bytes.items }
        ensures failing { result.failing ≡ failing.items }
        ensures calls { result.calls ≡ 0 }
        ensures faults { result.faults ≡ 0 }
    {
        MemorySource {
            bytes: SteadySource::new(bytes),
            schedule: Schedule::new(failing),
        }
    }
}

impl Source for MemorySource {
    ghost left = { λ s. Some s.left };

    ghost faults = { λ s. s.faults };

    fn take(&mut self, into: &mut [u8]) -> Taking
        requires room { 0 < length into.old }
        ensures some { IfBytes result (λ n. 0 < n) }
        ensures most { IfBytes result (λ n. n ≡ min (length self.old.left) (length into.old)) }
        ensures within { IfBytes result (λ n. n ≤ length into.new) }
        ensures given { IfBytes result (λ n. self.old.left ≡ take n into.new ++ self.new.left) }
        ensures end { OnEnd result (self.old.left ≡ []) }
        ensures end_kept { OnEnd result (self.new.left ≡ self.old.left) }

        // It fails at the calls that were chosen, and at no others.
        ensures chosen { (result ≡ Taking.Failed) ↔ Contains self.old.failing self.new.calls }
        ensures counted { self.new.calls ≡ one_more self.old.calls }
        ensures failed { OnFailed result (self.new.faults ≡ one_more self.old.faults) }
        ensures failed_kept { OnFailed result (self.new.left ≡ self.old.left) }
        ensures no_fault { result ≢ Taking.Failed → self.new.faults ≡ self.old.faults }
        ensures never_falls { self.old.faults ≤ self.new.faults }
        ensures failing { self.new.failing ≡ self.old.failing }
    {
        if self.schedule.fails_next() {
            self.schedule.fail();
            return Taking::Failed;
        }
        self.bytes.take(into)
    }
}
