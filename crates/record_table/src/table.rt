// The table, and the one door to its words: no other module sees the board. For each kind of atomic step
// there is one function here, and it asks that what the step tells has the step recorded as what it is.
ghost use Rattle.std.specs.Prelude.{◌≡◌, length};
ghost use Rattle.record_memory.specs.Memory.{size};
ghost use Rattle.record_rule.specs.Records.{IsSetup};

use crate::passes::Pass;
use crate::plays::{Looks, Stores, Telling, Tells};
use atomic_table::{Join, Seat, Split, Table as Board};
use record_memory::{Setup, View};
use record_rule::{Cover, Shape, World};
use row_words::Generation;
use std::alloc::{AllocError, Global};

/// The one table of atomic words. A record is a row of eight words, and the roots are its first
/// records.
#[derive(Drop)]
pub struct Table<S: Shape, R: Cover> {
    board: Board<(), View, Setup, World<S, R>, Global>,
    pub(crate) setup: Setup,
    pub(crate) first: Generation,
    // The words that the table was made with, and room for those that it ends with.
    room: Vec<u64>,
    pub ghost setup_is: { setup ≡ board.shared.key },
    pub ghost first_is: { first ≡ board.shared.key.first },
    pub ghost numbers: { IsSetup board.shared.key },
    pub ghost sized: { board.shared.table_id.words ≡ size board.shared.key.callers board.shared.key.records },
    pub ghost roomy: { length room.items ≡ size board.shared.key.callers board.shared.key.records },
    pub ghost no_slots: { board.shared.table_id.slots ≡ 0 },
}

// The steps of callers. What a call's pick reads beside the pass, the word and the values is an argument, too, and
// costs nothing.
impl<S: Shape, R: Cover> Table<S, R> {
    ghost use Rattle.std.specs.Prelude.{◌≡◌, ℕ, ◌+◌, ◌%◌, ◌^◌, ◌<◌, ◌==◌, if◌then◌else◌};
    ghost use Rattle.record_memory.specs.declared.steps.StepKind.TheVariants.{Load, Store, Swap, Add, Exchange};
    ghost use Rattle.record_memory.specs.Memory.{size, word_at};
    ghost use Rattle.record_rule.specs.Kinds.{Lawful};
    ghost use Rattle.record_table.specs.Handles.{setup_of, rule, view, seat_of, IsPassOf, IsSamePass};
    ghost use Rattle.record_table.specs.Recording.{Adds, Records};

    pub(crate) fn load<M: Tells, A>(&self, pass: &mut Pass<S, R>, word: usize, _about: &A) -> u64
        requires pass { IsPassOf self.now pass.old }
        requires word { word < size (setup_of self.now).callers (setup_of self.now).records }
        requires lawful { Lawful (rule S.facts R.facts self.now) (seat_of pass.old) (view pass.old) word (λ n. n) (M.tells (view pass.old)) }
        requires recorded { Records Load (word_at (setup_of self.now).callers word) (λ n. n) M.tells (view pass.old) }
        ensures pass { IsSamePass pass.old pass.new }
        ensures told { M.tells (view pass.old) result (view pass.new) }
        ensures recorded { Adds Load (word_at (setup_of self.now).callers word) result result (view pass.old) (view pass.new) }
    {
        self.board.shared.load::<Telling<M>>(&mut pass.seat, word)
    }

    pub(crate) fn store<M: Tells, A>(
        &self,
        pass: &mut Pass<S, R>,
        word: usize,
        value: u64,
        _about: &A,
    )
        requires pass { IsPassOf self.now pass.old }
        requires word { word < size (setup_of self.now).callers (setup_of self.now).records }
        requires lawful { Lawful (rule S.facts R.facts self.now) (seat_of pass.old) (view pass.old) word (λ _. value) (M.tells (view pass.old)) }
        requires recorded { Records Store (word_at (setup_of self.now).callers word) (λ _. value) M.tells (view pass.old) }
        ensures pass { IsSamePass pass.old pass.new }
        ensures told { (found : ℕ) × M.tells (view pass.old) found (view pass.new) }
        ensures recorded { (found : ℕ) × Adds Store (word_at (setup_of self.now).callers word) found value (view pass.old) (view pass.new) }
    {
        self.board
            .shared
            .store::<Stores<M>>(&mut pass.seat, word, value);
    }

    pub(crate) fn swap<M: Tells>(&self, pass: &mut Pass<S, R>, word: usize, value: u64) -> u64
        requires pass { IsPassOf self.now pass.old }
        requires word { word < size (setup_of self.now).callers (setup_of self.now).records }
        requires lawful { Lawful (rule S.facts R.facts self.now) (seat_of pass.old) (view pass.old) word (λ _. value) (M.tells (view pass.old)) }
        requires recorded { Records Swap (word_at (setup_of self.now).callers word) (λ _. value) M.tells (view pass.old) }
        ensures pass { IsSamePass pass.old pass.new }
        ensures told { M.tells (view pass.old) result (view pass.new) }
        ensures recorded { Adds Swap (word_at (setup_of self.now).callers word) result value (view pass.old) (view pass.new) }
    {
        self.board
            .shared
            .swap::<Telling<M>>(&mut pass.seat, word, value)
    }

    pub(crate) fn add<M: Tells>(&self, pass: &mut Pass<S, R>, word: usize, more: u64) -> u64
        requires pass { IsPassOf self.now pass.old }
        requires word { word < size (setup_of self.now).callers (setup_of self.now).records }
        requires lawful { Lawful (rule S.facts R.facts self.now) (seat_of pass.old) (view pass.old) word (λ n. (n + more) % 2 ^ 64) (M.tells (view pass.old)) }
        requires recorded { Records Add (word_at (setup_of self.now).callers word) (λ n. (n + more) % 2 ^ 64) M.tells (view pass.old) }
        ensures pass { IsSamePass pass.old pass.new }
        ensures told { M.tells (view pass.old) result (view pass.new) }
        ensures recorded { Adds Add (word_at (setup_of self.now).callers word) result ((result + more) % 2 ^ 64) (view pass.old) (view pass.new) }
    {
        self.board
            .shared
            .fetch_add::<Telling<M>>(&mut pass.seat, word, more)
    }

    pub(crate) fn exchange<M: Tells>(
        &self,
        pass: &mut Pass<S, R>,
        word: usize,
        expected: u64,
        new: u64,
    ) -> u64
        requires pass { IsPassOf self.now pass.old }
        requires word { word < size (setup_of self.now).callers (setup_of self.now).records }
        requires lawful { Lawful (rule S.facts R.facts self.now) (seat_of pass.old) (view pass.old) word (λ n. if n == expected then new else n) (M.tells (view pass.old)) }
        requires recorded { Records Exchange (word_at (setup_of self.now).callers word) (λ n. if n == expected then new else n) M.tells (view pass.old) }
        ensures pass { IsSamePass pass.old pass.new }
        ensures told { M.tells (view pass.old) result (view pass.new) }
        ensures recorded { Adds Exchange (word_at (setup_of self.now).callers word) result (if result == expected then new else result) (view pass.old) (view pass.new) }
    {
        self.board
            .shared
            .compare_exchange::<Telling<M>>(&mut pass.seat, word, expected, new)
    }
}

// What a seat knows is cut in two or joined. Each of these makes one load of word 0, which stands in no list of
// steps.
impl<S: Shape, R: Cover> Table<S, R> {
    ghost use Rattle.std.specs.Prelude.{◌≡◌, []};
    ghost use Rattle.atomic_table.specs.Table.{Splits, Joins};
    ghost use Rattle.record_rule.specs.Beginnings.{IsOneHistory};
    ghost use Rattle.record_table.specs.Handles.{rule};

    pub(crate) fn split<M: Split<View>>(&self, seat: &mut Seat<(), View>) -> Seat<(), View>
        requires table { seat.old.table_id ≡ self.now.board.shared.table_id }
        requires splits { Splits (rule S.facts R.facts self.now) seat.old.id seat.old.me.0 (M.left seat.old.me.0) (M.right seat.old.me.0) }
        ensures table { (seat.new.table_id ≡ seat.old.table_id) × (seat.new.id ≡ seat.old.id) }
        ensures left { seat.new.me ≡ (M.left seat.old.me.0, seat.old.me.1) }
        ensures new { result.table_id ≡ seat.old.table_id }
        ensures right { result.me ≡ (M.right seat.old.me.0, []) }
    {
        self.board.shared.split_seat::<M>(seat)
    }

    pub(crate) fn join<M: Join<View>>(&self, seat: &mut Seat<(), View>, other: Seat<(), View>)
        requires table { seat.old.table_id ≡ self.now.board.shared.table_id }
        requires other { (other.table_id ≡ self.now.board.shared.table_id) × (other.me.1 ≡ []) }
        requires joins { Joins (rule S.facts R.facts self.now) seat.old.id seat.old.me.0 other.id other.me.0 (M.both seat.old.me.0 other.me.0) M.spent }
        ensures table { (seat.new.table_id ≡ seat.old.table_id) × (seat.new.id ≡ seat.old.id) }
        ensures both { seat.new.me ≡ (M.both seat.old.me.0 other.me.0, seat.old.me.1) }
    {
        self.board.shared.join_seat::<M>(seat, other);
    }

    // The pass looks whether what it knows is one history.
    pub(crate) fn look(&self, seat: &mut Seat<(), View>)
        requires table { seat.old.table_id ≡ self.now.board.shared.table_id }
        ensures table { (seat.new.table_id ≡ seat.old.table_id) × (seat.new.id ≡ seat.old.id) }
        ensures same { seat.new.me ≡ seat.old.me }
        ensures history { IsOneHistory seat.old.me.0 }
    {
        self.board.shared.load::<Looks>(seat, 0);
    }
}

// How a table begins and ends.
impl<S: Shape, R: Cover> Table<S, R> {
    ghost use Rattle.std.specs.Prelude.{◌≡◌, [], length, IfOk};
    ghost use Rattle.record_memory.specs.Memory.{size};
    ghost use Rattle.record_rule.specs.Opening.{opening_words, first_view};
    ghost use Rattle.record_rule.specs.Records.{IsSetup};
    ghost use Rattle.record_table.specs.Closing.{IsEndOf};
    ghost use Rattle.record_table.specs.Handles.{setup_of, rule};

    // The table over these words, with its first seat.
    pub(crate) fn over(
        alloc: Global,
        room: Vec<u64>,
        setup: Setup,
        first: Generation,
    ) -> Result<(Table<S, R>, Seat<(), View>), AllocError>
        requires words { room.items ≡ opening_words setup }
        requires numbers { IsSetup setup }
        requires first { first ≡ setup.first }
        requires set { setup.set ≡ S.NAME }
        requires reclaimer { setup.reclaimer ≡ R.NAME }
        ensures table { IfOk result (λ made. setup_of made.0 ≡ setup) }
        ensures seat { IfOk result (λ made. made.1.table_id ≡ made.0.board.shared.table_id) }
        ensures view { IfOk result (λ made. made.1.me ≡ (first_view R.facts.first setup, [])) }
    {
        let (board, seat) = Board::<(), View, Setup, World<S, R>, Global>::of_words(
            alloc,
            room.as_slice(),
            &setup,
        )?;
        let table = Table {
            board,
            setup,
            first,
            room,
        };
        Ok((table, seat))
    }

    // Ends the table and copies its words, once, into the room that was taken for them.
    pub(crate) fn into_words(self, last: Seat<(), View>) -> (Vec<u64>, Setup)
        requires table { last.table_id ≡ self.board.shared.table_id }
        ensures setup { result.1 ≡ setup_of self }
        ensures sized { length result.0.items ≡ size (setup_of self).callers (setup_of self).records }
        ensures end { IsEndOf (rule S.facts R.facts self) last.me.0 result.0.items }
    {
        let Table {
            board,
            setup,
            first: _,
            mut room,
        } = self;
        let closed = board.close_with(last);
        let words = room.as_mut_slice();
        for i in 0..words.len() {
            words[i] = closed.word(i);
        }
        closed.free();
        (room, setup)
    }
}
