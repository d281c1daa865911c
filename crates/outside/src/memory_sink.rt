// Sinks that keep what they get in memory, or nothing of it.
ghost use Rattle.std.specs.Prelude.{◌≡◌, ℕ, ◌+◌, ◌-◌, ◌<◌, ◌≤◌, ◌≢◌, ◌↔◌, ◌⊎◌, None, Some, Contains, [], ◌++◌, length, min, take, vec_capacity};
ghost use Rattle.outside.specs.Bytes.{with_back};
ghost use Rattle.outside.specs.Faults.{one_more};
ghost use Rattle.outside.specs.Putting.{IfTook, OnFailed};

use crate::schedule::Schedule;
use crate::sink::{Putting, Sink};
use std::marker::Model;

/// A sink that keeps what it gets in a vector's capacity, and fails at chosen calls and where that
/// capacity is used up.
#[derive(Drop)]
pub struct MemorySink {
    bytes: Vec<u8>,
    room: usize,
    most: usize,
    schedule: Schedule,
}

impl Model for MemorySink {
    ghost use Rattle.std.specs.Prelude.{◌+◌, ◌≤◌, ◌<◌, vec_len, vec_capacity};
    ghost use Rattle.outside.specs.Memory.{SinkState};

    ghost Value = { SinkState };

    ghost view = { λ s. record {
      got = s.bytes.items;
      room = s.room;
      most = s.most;
      failing = s.schedule.failing.items;
      calls = s.schedule.calls;
      faults = s.schedule.faults;
    } };

    ghost invariant = { λ s. (0 < s.most) × (vec_len s.bytes + s.room ≤ vec_capacity s.bytes) };
}

impl MemorySink {
    /// Keeps what it gets in the capacity of `room`, which is empty. It takes at most `most` bytes at a
    /// call, fails at the calls whose numbers, from 1, are in `failing`, and counts a fault, too, where
    /// the capacity is used up.
    pub fn new(room: Vec<u8>, most: usize, failing: Vec<u32>) -> Self
        requires empty { room.items ≡ [] }
        requires some { 0 < most }
        ensures got { result.got ≡ [] }
        ensures room { result.room ≡ vec_capacity room }
        ensures most { result.most ≡ most }
        ensures failing { result.failing ≡ failing.items }
        ensures calls { result.calls ≡ 0 }
        ensures faults { result.faults ≡ 0 }
    {
        MemorySink {
            room: room.capacity(),
            bytes: room,
            most,
            schedule: Schedule::new(failing),
        }
    }

    /// What it got.
    pub fn got(&self) -> &[u8]
        ensures { result.now ≡ self.now.got }
    {
        self.bytes.as_slice()
    }
}

impl Sink for MemorySink {
    ghost got = { λ s. Some s.got };

    ghost faults = { λ s. s.faults };

    fn put(&mut self, piece: &[u8]) -> Putting
        requires { 0 < length piece.now }
        ensures some { IfTook result (λ n. 0 < n) }
        ensures most { IfTook result (λ n. n ≡ min (min (length piece.now) self.old.most) self.old.room) }
        ensures within { IfTook result (λ n. n ≤ length piece.now) }
        ensures took { IfTook result (λ n. self.new.got ≡ self.old.got ++ take n piece.now) }
        ensures room { IfTook result (λ n. self.new.room + n ≡ self.old.room) }

        // It fails at the calls that were chosen and where no room is left, and at no others.
        ensures chosen { (result ≡ Putting.Failed)
            ↔ (Contains self.old.failing self.new.calls ⊎ (self.old.room ≡ 0)) }
        ensures counted { self.new.calls ≡ one_more self.old.calls }
        ensures failed { OnFailed result (self.new.faults ≡ one_more self.old.faults) }
        ensures failed_kept { OnFailed result (self.new.got ≡ self.old.got) }
        ensures failed_room { OnFailed result (self.new.room ≡ self.old.room) }
        ensures no_fault { result ≢ Putting.Failed → self.new.faults ≡ self.old.faults }
        ensures never_falls { self.old.faults ≤ self.new.faults }
        ensures failing { self.new.failing ≡ self.old.failing }
        ensures same_most { self.new.most ≡ self.old.most }
    {
        let chosen = self.schedule.fails_next();
        if chosen || self.room == 0 {
            self.schedule.fail();
            return Putting::Failed;
        }
        let count = piece.len().min(self.most).min(self.room);
        self.room -= count;
        self.bytes.extend_from_slice(&piece[..count]).unwrap();
        Putting::Took(count)
    }
}

/// A sink that takes each piece whole, keeps none of its bytes and tells nothing of them. It never
/// fails.
#[derive(Clone, Copy, Debug)]
pub struct SteadySink;

impl SteadySink {
    /// Takes whatever comes.
    pub fn new() -> Self {
        SteadySink
    }
}

impl Sink for SteadySink {
    ghost got = { λ _. None };

    ghost faults = { λ _. 0 };

    fn put(&mut self, piece: &[u8]) -> Putting
        requires { 0 < length piece.now }
        ensures { result ≡ Putting.Took (length piece.now) }
    {
        Putting::Took(piece.len())
    }
}
