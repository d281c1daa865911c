// The trait of sources.
ghost use Rattle.std.specs.Prelude.{◌≡◌, ◌≢◌, ℕ, ◌<◌, ◌≤◌, List, Option, length, take};
ghost use Rattle.outside.specs.Bytes.{with_front, IsAllGiven};
ghost use Rattle.outside.specs.Faults.{Rose, one_more};
ghost use Rattle.outside.specs.Taking.{IfBytes, OnEnd, OnFailed};

/// What one call of a source came to.
#[derive(Clone, Copy, Debug, PartialEq, Eq)]
pub enum Taking {
    /// So many bytes were given, at least one.
    Bytes(usize),
    /// Nothing is left.
    End,
    /// The call failed, and nothing was given.
    Failed,
}

/// Gives bytes, in pieces.
pub trait Source {
    /// The bytes that it has still to give, where it tells them.
    ghost left: { Self → Option (List ℕ) };

    /// How often it has failed. At 18,446,744,073,709,551,615 the count stands still.
    ghost faults: { Self → ℕ };

    /// Writes the next bytes to the front of `into`, which isn't empty. `Bytes` has their number, from
    /// 1 to the length of `into`. `End` comes exactly where nothing is left and the call doesn't fail,
    /// and `Failed` only where the count of faults rose. A call that doesn't fail leaves the count. The
    /// next call goes on from there.
    fn take(&mut self, into: &mut [u8]) -> Taking
        requires room { 0 < length into.old }
        ensures some { IfBytes result (λ n. 0 < n) }
        ensures within { IfBytes result (λ n. n ≤ length into.new) }
        ensures given { IfBytes result (λ n. left self.old ≡ with_front (take n into.new) (left self.new)) }

        // A source that tells its bytes ends where it has given them all, and no earlier.
        ensures end { OnEnd result (IsAllGiven (left self.old)) }
        ensures end_kept { OnEnd result (left self.new ≡ left self.old) }

        ensures failed { OnFailed result (Rose (faults self.old) (faults self.new)) }
        ensures failed_kept { OnFailed result (left self.new ≡ left self.old) }
        ensures counted { OnFailed result (faults self.new ≡ one_more (faults self.old)) }
        ensures no_fault { result ≢ Taking.Failed → faults self.new ≡ faults self.old }
        ensures never_falls { faults self.old ≤ faults self.new };
}
