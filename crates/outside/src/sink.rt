// The trait of sinks.
ghost use Rattle.std.specs.Prelude.{◌≡◌, ◌≢◌, ℕ, ◌<◌, ◌≤◌, List, Option, length, take};
ghost use Rattle.outside.specs.Bytes.{with_back};
ghost use Rattle.outside.specs.Faults.{Rose, one_more};
ghost use Rattle.outside.specs.Putting.{IfTook, OnFailed};

/// What one call of a sink came to.
#[derive(Clone, Copy, Debug, PartialEq, Eq)]
pub enum Putting {
    /// So many of the bytes were taken, the first ones, at least one.
    Took(usize),
    /// The call failed, and nothing was taken.
    Failed,
}

/// Takes bytes, in pieces.
pub trait Sink {
    /// The bytes that it got, where it tells them.
    ghost got: { Self → Option (List ℕ) };

    /// How often it has failed. At 18,446,744,073,709,551,615 the count stands still.
    ghost faults: { Self → ℕ };

    /// Takes bytes from the front of `piece`, which isn't empty. `Took` has their number, from 1 to the
    /// length of `piece`, and `Failed` comes only where the count of faults rose. A call that doesn't
    /// fail leaves the count. The next call goes on from there.
    fn put(&mut self, piece: &[u8]) -> Putting
        requires { 0 < length piece.now }
        ensures some { IfTook result (λ n. 0 < n) }
        ensures within { IfTook result (λ n. n ≤ length piece.now) }
        ensures took { IfTook result (λ n. got self.new ≡ with_back (got self.old) (take n piece.now)) }
        ensures failed { OnFailed result (Rose (faults self.old) (faults self.new)) }
        ensures failed_kept { OnFailed result (got self.new ≡ got self.old) }
        ensures counted { OnFailed result (faults self.new ≡ one_more (faults self.old)) }
        ensures no_fault { result ≢ Putting.Failed → faults self.new ≡ faults self.old }
        ensures never_falls { faults self.old ≤ faults self.new };
}
