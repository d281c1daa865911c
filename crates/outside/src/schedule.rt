// Which calls of an object in memory fail.
ghost use Rattle.std.specs.Prelude.{◌≡◌, ◌≤◌, ◌↔◌, IsTrue, Contains};
ghost use Rattle.outside.specs.Faults.{one_more};

/// Counts calls, and tells which of them are to fail.
#[derive(Drop)]
pub struct Schedule {
    /// The numbers of the calls that are to fail, from 1.
    pub failing: Vec<u32>,
    /// How many calls were made. It stands still at the last value of its type, and so does the next.
    pub calls: u64,
    /// How many calls failed.
    pub faults: u64,
}

impl Schedule {
    /// No call was made, and those whose numbers are in `failing` are to fail.
    pub fn new(failing: Vec<u32>) -> Self
        ensures failing { result.failing.items ≡ failing.items }
        ensures calls { result.calls ≡ 0 }
        ensures faults { result.faults ≡ 0 }
    {
        Schedule {
            failing,
            calls: 0,
            faults: 0,
        }
    }

    /// Counts a call, and says whether it fails.
    pub fn fails_next(&mut self) -> bool
        ensures listed { IsTrue result ↔ Contains self.old.failing.items self.new.calls }
        ensures counted { self.new.calls ≡ one_more self.old.calls }
        ensures failing { self.new.failing.items ≡ self.old.failing.items }
        ensures faults { self.new.faults ≡ self.old.faults }
    {
        self.calls = self.calls.saturating_add(1);
        self.failing
            .iter()
            .any(|call| u64::from(*call) == self.calls)
    }

    /// Counts a fault.
    pub fn fail(&mut self)
        ensures counted { self.new.faults ≡ one_more self.old.faults }
        ensures no_lower { self.old.faults ≤ self.new.faults }
        ensures calls { self.new.calls ≡ self.old.calls }
        ensures failing { self.new.failing.items ≡ self.old.failing.items }
    {
        self.faults = self.faults.saturating_add(1);
    }
}
