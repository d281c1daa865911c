// Joining passes, and closing a table.
ghost use Rattle.std.specs.Prelude.{◌≡◌, length};
ghost use Rattle.record_memory.specs.Memory.{size};

use crate::passes::{Pass, Takes};
use crate::table::Table;
use atomic_table::Seat;
use record_memory::{Setup, View};
use record_rule::{Cover, Shape};
use std::snapshot::Snapshot;

/// A table that no caller uses any more: its words and its numbers. For contracts alone it also has
/// what the last pass knew: the steps and the answered calls of all callers, and the one history.
#[derive(Drop)]
pub struct Closed {
    words: Vec<u64>,
    setup: Setup,
    last: Snapshot<Seat<(), View>>,
    pub ghost sized: { length words.items ≡ size setup.callers setup.records },
}

impl Closed {
    ghost use Rattle.std.specs.Prelude.{◌≡◌};
    ghost use Rattle.record_table.specs.Closing.{closed_words, closed_setup};

    /// The words, the control words first.
    pub fn words(&self) -> &[u64]
        ensures { result.now ≡ closed_words self.now }
    {
        self.words.as_slice()
    }

    /// How many records the table had, the roots among them.
    pub fn records(&self) -> u32
        ensures { result ≡ (closed_setup self.now).records }
    {
        self.setup.records
    }

    /// How many roots it had.
    pub fn roots(&self) -> u32
        ensures { result ≡ (closed_setup self.now).roots }
    {
        self.setup.roots
    }

    /// How many callers it had.
    pub fn callers(&self) -> u32
        ensures { result ≡ (closed_setup self.now).callers }
    {
        self.setup.callers
    }
}

impl<S: Shape, R: Cover> Table<S, R> {
    ghost use Rattle.std.specs.Prelude.{◌≡◌, ◌<◌, ℕ};
    ghost use Rattle.record_rule.specs.Splits.{joined};
    ghost use Rattle.record_table.specs.Handles.{setup_of, rule, view, since, is_inside, seat_of, IsPassOf};
    ghost use Rattle.record_rule.specs.Beginnings.{IsOneHistory};
    ghost use Rattle.record_table.specs.Closing.{closed_words, closed_setup, closed_view, IsLastOf, IsEndOf, IsClosedBy};

    /// Joins a pass of this table into another one, which then carries the steps of both.
    pub fn absorb(&self, into: &mut Pass<S, R>, from: Pass<S, R>)
        requires into { IsPassOf self.now into.old }
        requires from { IsPassOf self.now from }
        ensures pass { IsPassOf self.now into.new }
        ensures seat { seat_of into.new ≡ seat_of into.old }
        ensures joined { view into.new ≡ joined (view into.old) (view from) }
        ensures guard { (since into.new ≡ since into.old) × (is_inside into.new ≡ is_inside into.old) }
    {
        let Pass {
            seat,
            caller: _,
            since: _,
            inside: _,
            marker: _,
        } = from;
        self.join::<Takes>(&mut into.seat, seat);
    }

    // Ends the table and keeps its words.
    fn end(self, last: Pass<S, R>) -> Closed
        requires pass { IsPassOf self last }
        requires all { IsLastOf (setup_of self) (view last) }
        ensures setup { closed_setup result ≡ setup_of self }
        ensures view { closed_view result ≡ view last }
        ensures end { IsEndOf (rule S.facts R.facts self) (view last) (closed_words result) }
    {
        let Pass {
            seat,
            caller: _,
            since: _,
            inside: _,
            marker: _,
        } = last;
        let last = Snapshot::of(&seat);
        let (words, setup) = self.into_words(seat);
        Closed { words, setup, last }
    }

    /// Closes the table. `last` is caller 0's pass and has absorbed every other pass in order of
    /// number. The words are copied once, into room that `prepare` took. The front of `last` is the
    /// table's one history. What it knows is of one history, so the fronts of the passes that it
    /// absorbed begin it (`heard_joined`).
    pub fn close_last(self, last: Pass<S, R>) -> Closed
        requires pass { IsPassOf self last }
        requires all { IsLastOf (setup_of self) (view last) }
        ensures setup { closed_setup result ≡ setup_of self }
        ensures view { closed_view result ≡ view last }
        ensures one { IsOneHistory (view last) }
        ensures fits { IsClosedBy S.facts R.facts result }
    {
        self.end(last)
    }
}

impl<S: Shape, R: Cover> Table<S, R> {
    ghost use Rattle.std.specs.Prelude.{◌≡◌, map, All};
    ghost use Rattle.record_table.specs.Handles.{setup_of};
    ghost use Rattle.record_table.specs.Closing.{closed_setup, closed_books, own_book, AreAllPasses, IsClosedBy, BeginsHistory};

    /// Closes the table. `passes` has every pass of this table in order of number. The front of each
    /// begins the table's one history.
    pub fn close(self, mut passes: Vec<Pass<S, R>>) -> Closed
        requires { AreAllPasses self passes.items }
        ensures setup { closed_setup result ≡ setup_of self }
        ensures books { closed_books result ≡ map own_book passes.items }
        ensures fronts { All (BeginsHistory result) passes.items }
        ensures fits { IsClosedBy S.facts R.facts result }
    {
        passes.reverse();
        let Some(mut last) = passes.pop() else {
            unreachable!()
        };
        while let Some(pass) = passes.pop() {
            self.absorb(&mut last, pass);
        }
        self.close_last(last)
    }
}
