// A gate at which a call of one caller waits for that of another.
ghost use Rattle.std.specs.Prelude.{◌≡◌, ◌↔◌, IsTrue, false};

use crate::gate::Gate;
use crossbeam_utils::CachePadded;
use std::marker::Model;
use std::sync::atomic::{AtomicBool, Ordering};

/// One call of a run, by the numbers that a gate is told.
#[derive(Clone, Copy, Debug)]
struct NumberedCall {
    caller: u32,
    call: u32,
}

impl NumberedCall {
    /// The pair of the caller's number and the call's.
    fn of(pair: (u32, u32)) -> Self
        ensures caller { result.caller ≡ pair.0 }
        ensures call { result.call ≡ pair.1 }
    {
        let (caller, call) = pair;
        NumberedCall { caller, call }
    }

    /// Whether it is this call.
    fn is(&self, caller: u32, call: u32) -> bool
        ensures { IsTrue result ↔ (self.now.caller ≡ caller) × (self.now.call ≡ call) }
    {
        self.caller == caller && self.call == call
    }
}

/// A gate at which a call of one caller waits for that of another, so that a test can tell whether callers run
/// at the same time. It waits for a bounded number of turns, so no run hangs in it.
#[derive(Drop)]
pub struct MeetGate {
    held: NumberedCall,
    awaited: NumberedCall,
    limit: u32,
    /// Whether the awaited call was made. The caller that waits loads it over and over, so nothing else stands on
    /// its cache lines.
    came: CachePadded<AtomicBool>,
    met: AtomicBool,
}

impl Model for MeetGate {
    ghost use Rattle.outside.specs.Meeting.{Meeting};

    ghost Value = { Meeting };

    ghost view = { λ g. record { held = g.held; awaited = g.awaited; limit = g.limit } };
}

impl MeetGate {
    /// Holds up the call `held` until the call `awaited` was made, for at most `limit` turns. Each of the two is a
    /// pair of the caller's number, from 0, and of the call's number within that caller, from 1. One turn is one
    /// load of a flag, so the limit says how long a call is held up at most, and with 0 none is.
    pub fn new(held: (u32, u32), awaited: (u32, u32), limit: u32) -> Self
        ensures held { (result.held.caller ≡ held.0) × (result.held.call ≡ held.1) }
        ensures awaited { (result.awaited.caller ≡ awaited.0) × (result.awaited.call ≡ awaited.1) }
        ensures limit { result.limit ≡ limit }
    {
        MeetGate {
            held: NumberedCall::of(held),
            awaited: NumberedCall::of(awaited),
            limit,
            came: CachePadded::new(AtomicBool::new(false)),
            met: AtomicBool::new(false),
        }
    }

    /// Whether the awaited call was made before the wait for it ran out of turns. It is false until the call that
    /// is held up has come by.
    pub fn met(&self) -> bool {
        self.met.load(Ordering::SeqCst)
    }

    /// Looks whether the awaited call was made, as often as the limit says and until it was.
    fn comes_in_time(&self) -> bool
        ensures { self.now.limit ≡ 0 → result ≡ false }
    {
        for _ in 0..self.limit {
            if self.came.load(Ordering::SeqCst) {
                return true;
            }
        }
        false
    }
}

impl Gate for MeetGate {
    fn before(&self, caller: u32, call: u32) {
        if self.held.is(caller, call) && self.comes_in_time() {
            self.met.store(true, Ordering::SeqCst);
        }
    }

    fn after(&self, caller: u32, call: u32) {
        if self.awaited.is(caller, call) {
            self.came.store(true, Ordering::SeqCst);
        }
    }
}
