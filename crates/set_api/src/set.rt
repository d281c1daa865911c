// A set that callers share.
ghost use Rattle.std.specs.Prelude.{◌≡◌, ℕ, ◌≤◌, All, map};
ghost use Rattle.set_model.specs.declared.calls.Call.{Call};
ghost use Rattle.set_model.specs.Machine.{key_of};
ghost use Rattle.record_memory.specs.declared.books.Book.{Book};
ghost use Rattle.record_memory.specs.declared.books.Setup.{Setup};
ghost use Rattle.record_memory.specs.declared.books.View.{View};
ghost use Rattle.record_rule.specs.Facts.{ShapeFacts, CoverFacts};
ghost use Rattle.record_rule.specs.World.{StartsWith};
ghost use Rattle.record_table.specs.Closing.{closed_setup, closed_books, history_of, numbers_from, IsClosedBy};
ghost use Rattle.manager.specs.Counted.{AreCountsOf};
ghost use Rattle.manager.specs.Made.{AreAddedUp};
ghost use Rattle.set_api.specs.declared.answer.Answer.{Answer};
ghost use Rattle.set_api.specs.Answers.{Tells, Meets};

use crate::answer::Answer;
use record_table::Closed;
use set_model::{Call, Counts};

/// A set of keys over one table of records, which callers share. It is made with its callers, each with a
/// number from 0 on, and is closed with all of them.
pub trait ConcurrentSet {
    /// One of its callers, between its calls.
    type Caller: Drop;

    // The facts of the set and of the reclaimer, by which the table keeps its rule.
    ghost facts: { ShapeFacts };

    ghost cover: { CoverFacts };

    // The numbers and the names that its table was made with.
    ghost setup: { Self → Setup };

    // It is a caller of this set, between its calls, and has absorbed no other.
    ghost has: { Self → Self.Caller → Type 0 };

    // What a caller knows.
    ghost view: { Self.Caller → View };

    // The steps of one call within a budget of hops, from its caller's book before to the book after, and
    // its answer.
    ghost steps: { Setup → Call → ℕ → Answer → Book → Book → Type 0 };

    /// Makes a call. Its key is at most 1,099,511,627,773. `budget` is how many hops it may make.
    fn play(&self, caller: &mut Self::Caller, call: Call, budget: u32) -> Answer
        requires has { has self.now caller.old }
        requires key { key_of call ≤ 1099511627773 }
        ensures has { has self.entry.now caller.new }
        ensures same { (view caller.new).own.caller ≡ (view caller.old).own.caller }
        ensures tells { Tells call result (view caller.old) (view caller.new) }
        ensures steps { steps (setup self.entry.now) call budget result (view caller.old).own (view caller.new).own };

    /// Lets the caller `into` learn what the caller `from` has seen: afterwards whatever `from` had seen
    /// comes before each later call of `into`. Nothing else that they know changes.
    fn meet(&self, from: &mut Self::Caller, into: &mut Self::Caller)
        requires has { has self.now from.old × has self.now into.old }
        ensures has { has self.entry.now from.new × has self.entry.now into.new }
        ensures unchanged { view from.new ≡ view from.old }
        ensures met { Meets (view from.old) (view into.old) (view into.new) };

    /// How often this caller moved records, and how many of its records lie where now.
    fn counts(&self, caller: &Self::Caller) -> Counts
        requires has { has self.now caller.now }
        ensures counts { AreCountsOf result (view caller.now).own };

    /// Ends the set. `callers` has every caller of it in order of number. The closed table has one legal
    /// history, in which each answered call stands once, in its caller's order. What a caller knew of the
    /// history begins it.
    fn close(self, callers: Vec<Self::Caller>) -> Closed
        requires has { All (has self) callers.items }
        requires order { map (λ caller. (view caller).own.caller) callers.items ≡ numbers_from 0 (setup self).callers }
        ensures setup { closed_setup result ≡ setup self }
        ensures books { closed_books result ≡ map (λ caller. (view caller).own) callers.items }
        ensures fronts { All (λ caller. StartsWith (history_of result) (view caller).front) callers.items }
        ensures fits { IsClosedBy facts cover result }
        ensures moves { AreAddedUp result };
}
