// What its callers do beside the three calls: they hold records, are counted, meet, and end the table.
ghost use Rattle.std.specs.Prelude.{◌≡◌, ◌<◌, ◌⊎◌, [], All, map};
ghost use Rattle.record_memory.specs.declared.books.Book.{Book};
ghost use Rattle.row_words.specs.declared.links.Freed.{Freed};
ghost use Rattle.record_rule.specs.World.{StartsWith};
ghost use Rattle.list_facts.specs.Michael.{michael};
ghost use Rattle.record_table.specs.Handles.{setup_of, view, IsPassOf, IsSamePass};
ghost use Rattle.record_table.specs.Closing.{closed_setup, closed_books, own_book, AreAllPasses, IsClosedBy, BeginsHistory};
ghost use Rattle.reclaim_api.specs.Frames.{LeavesRest};
ghost use Rattle.reclaim_api.specs.Guarding.{Enters};
ghost use Rattle.record_pieces.specs.Giving.{GivesChains};
ghost use Rattle.manager.specs.Manners.{gives_by};
ghost use Rattle.manager.specs.Callers.{IsResting};
ghost use Rattle.manager.specs.Counted.{AreCountsOf};
ghost use Rattle.manager.specs.Guards.{IsAtWork};
ghost use Rattle.manager.specs.Made.{passes_of, AreAddedUp};
ghost use Rattle.manager.specs.Meeting.{HaveMet, HaveAllMet};

use crate::hash::MichaelHash;
use alloc_api::Allocator;
use manager::{Caller, Guard};
use michael_list::MichaelShape;
use pool::Pool;
use reclaim_api::Scheme;
use record_table::Closed;
use set_model::Counts;

impl<R: Scheme, A: Allocator, P: Pool> MichaelHash<R, A, P> {
    /// How many buckets it has, at least 1: key `k` is in the one with number `k` modulo this.
    pub fn buckets(&self) -> u32
        ensures buckets { result ≡ (setup_of self.now.lists.manager.table).roots }
        ensures some { 0 < result }
    {
        self.lists.roots()
    }

    /// Begins an operation of this caller, which may hold records of the table by itself. The guard must be spent by
    /// `finish`.
    pub fn begin<'a>(
        &'a self,
        caller: &'a mut Caller<MichaelShape, R>,
    ) -> Guard<'a, MichaelShape, R, A, P>
        requires of { IsPassOf self.now.lists.manager.table caller.old.pass }
        requires caller { IsResting R.is_local caller.old }
        ensures same_reference { result.caller.ghost_name ≡ caller.entry.ghost_name }
        ensures manager { result.manager.now ≡ self.entry.now.lists.manager }
        ensures at_work { IsAtWork result }
        ensures pass { Enters caller.old.pass result.caller.now.pass }
        ensures rest { LeavesRest (view caller.old.pass) (view result.caller.now.pass) }
        ensures locks { (view result.caller.now.pass).own.locks ≡ [] }
        ensures did { (d : Book) × (f : Freed) × R.enters (setup_of self.entry.now.lists.manager.table) (view caller.old.pass).own f d
            × GivesChains P.SHELVES (gives_by P.SHELVES P.busy (setup_of self.entry.now.lists.manager.table)) f d (view result.caller.now.pass).own }
    {
        self.lists.begin(caller)
    }

    /// How often this caller moved records, and how many of its records lie where now. Each count that rises stands
    /// still at 2^64 - 1.
    pub fn counts(&self, caller: &Caller<MichaelShape, R>) -> Counts
        requires caller { IsResting R.is_local caller.now }
        ensures counts { AreCountsOf result (view caller.now.pass).own }
    {
        self.lists.counts(caller)
    }

    /// Lets the caller `into` learn what the caller `from` has seen: afterwards whatever `from` had seen
    /// comes before each later call of `into`. Nothing else that they know changes.
    pub fn meet(&self, from: &mut Caller<MichaelShape, R>, into: &mut Caller<MichaelShape, R>)
        requires of { IsPassOf self.now.lists.manager.table from.old.pass × IsPassOf self.now.lists.manager.table into.old.pass }
        requires callers { IsResting R.is_local from.old × IsResting R.is_local into.old }
        ensures of { IsPassOf self.now.lists.manager.table from.new.pass × IsPassOf self.now.lists.manager.table into.new.pass }
        ensures callers { IsResting R.is_local from.new × IsResting R.is_local into.new }
        ensures passes { IsSamePass from.old.pass from.new.pass × IsSamePass into.old.pass into.new.pass }
        ensures unchanged { view from.new.pass ≡ view from.old.pass }
        ensures own { StartsWith (view into.new.pass).front (view into.old.pass).front }
        ensures met { StartsWith (view into.new.pass).front (view from.old.pass).front }
        ensures longer { ((view into.new.pass).front ≡ (view into.old.pass).front) ⊎ ((view into.new.pass).front ≡ (view from.old.pass).front) }
        ensures rest { view into.new.pass ≡ record (view into.old.pass) { front = (view into.new.pass).front } }
    {
        self.lists.meet(from, into);
    }

    /// Lets all callers meet: afterwards whatever any of them had seen comes before each later call of each.
    /// `callers` has every caller of this table in order of number, and none is inside an operation. Nothing
    /// else that they know changes. The call takes no memory and has no refusal.
    pub fn meet_all(&self, callers: &mut Vec<Caller<MichaelShape, R>>)
        requires passes { AreAllPasses self.now.lists.manager.table (passes_of callers.old.items) }
        requires resting { All (IsResting R.is_local) callers.old.items }
        ensures passes { AreAllPasses self.now.lists.manager.table (passes_of callers.new.items) }
        ensures resting { All (IsResting R.is_local) callers.new.items }
        ensures met { HaveAllMet callers.old.items callers.new.items }
        ensures same { HaveMet R.is_local self.now.lists.manager.table callers.old.items callers.new.items }
    {
        self.lists.meet_all(callers);
    }

    /// Ends the table. `callers` has every caller of it in order of number. The closed table has one legal history, in
    /// which each answered call stands once, in its caller's order.
    pub fn close(self, callers: Vec<Caller<MichaelShape, R>>) -> Closed
        requires { AreAllPasses self.lists.manager.table (passes_of callers.items) }
        ensures setup { closed_setup result ≡ setup_of self.lists.manager.table }
        ensures books { closed_books result ≡ map own_book (passes_of callers.items) }
        ensures fronts { All (BeginsHistory result) (passes_of callers.items) }
        ensures fits { IsClosedBy michael R.facts result }
        ensures moves { AreAddedUp result }
    {
        let MichaelHash { lists } = self;
        lists.close(callers)
    }
}
