// The set: its calls, each one guard.
ghost use Rattle.std.specs.Prelude.{◌≡◌, ◌≤◌, ◌<◌, ◌↔◌, ◌++◌, ◌⊎◌, [], ◌∷◌, List, Err, IfOk, All, map};
ghost use Rattle.set_model.specs.declared.names.SetName.TheVariants.{Michael};
ghost use Rattle.record_rule.specs.World.{StartsWith};
ghost use Rattle.list_facts.specs.Michael.{michael};
ghost use Rattle.record_table.specs.Handles.{setup_of, view, IsPassOf, IsSamePass};
ghost use Rattle.record_table.specs.Made.{AreFreshPasses, setup_with, AreBadRecords, AreBadCallers};
ghost use Rattle.record_table.specs.Closing.{closed_setup, closed_books, own_book, AreAllPasses, IsClosedBy, BeginsHistory};
ghost use Rattle.record_memory.specs.declared.books.Book.{Book};
ghost use Rattle.row_words.specs.declared.links.Freed.{Freed};
ghost use Rattle.reclaim_api.specs.Frames.{LeavesRest};
ghost use Rattle.reclaim_api.specs.Guarding.{IsSameCaller, Enters};
ghost use Rattle.record_pieces.specs.Events.{Event, begun, ended};
ghost use Rattle.record_pieces.specs.Giving.{GivesChains};
ghost use Rattle.record_pieces.specs.Trails.{Trail};
ghost use Rattle.manager.specs.Callers.{IsResting};
ghost use Rattle.manager.specs.Counted.{AreCountsOf};
ghost use Rattle.manager.specs.Guards.{IsAtWork};
ghost use Rattle.manager.specs.Manners.{gives_by, manner};
ghost use Rattle.manager.specs.Made.{passes_of, AreAddedUp};
ghost use Rattle.set_calls.specs.Answers.{InsertTells, RemoveTells, SearchTells};
ghost use Rattle.set_calls.specs.Spares.{GivesBack};
ghost use Rattle.michael_list.specs.Pieces.{Inserts, Removes, Searches};
ghost use Rattle.list_calls.specs.Standing.{IsHome};

use crate::inserting::insert;
use crate::removing::{remove, search};
use crate::shape::MichaelShape;
use alloc_api::Allocator;
use manager::{Caller, Guard, Manager};
use pool::Pool;
use reclaim_api::Scheme;
use record_table::{Closed, PrepareError};
use row_words::Generation;
use set_model::{Counts, InsertAnswer, LookAnswer};
use std::alloc::Global;

/// Michael's list, once for each root, over the records of one manager. A caller's records are reclaimed by `R`,
/// drawn by `A`, and wait in `P` while they are free. Callers share it, and each call is made by one of them.
#[derive(Drop)]
pub struct MichaelList<R: Scheme, A: Allocator, P: Pool> {
    pub(crate) manager: Manager<MichaelShape, R, A, P>,
}

impl<R: Scheme, A: Allocator, P: Pool> MichaelList<R, A, P> {
    /// Makes an empty set of `roots` lists, at least 1, over a table of `records` records, the roots among them, with its
    /// `callers` callers in order of number. A record that is handed out for the first time gets the generation
    /// `first`. The refusals are those of `record_table::prepare`, in their order; after one nothing exists.
    pub fn prepare(
        alloc: Global,
        records: u32,
        callers: u32,
        first: Generation,
        roots: u32,
    ) -> Result<(MichaelList<R, A, P>, Vec<Caller<MichaelShape, R>>), PrepareError>
        requires { 0 < roots }
        ensures records { (result ≡ Err PrepareError.Records) ↔ AreBadRecords records roots }
        ensures callers { (result ≡ Err PrepareError.Callers) ↔ ((¬ (AreBadRecords records roots)) × AreBadCallers callers) }
        ensures table { IfOk result (λ made. setup_of made.0.manager.table ≡ setup_with records roots callers first Michael R.NAME A.NAME) }
        ensures passes { IfOk result (λ made. AreAllPasses made.0.manager.table (passes_of made.1.items)) }
        ensures fresh { IfOk result (λ made. AreFreshPasses made.0.manager.table R.facts.first (passes_of made.1.items)) }
        ensures resting { IfOk result (λ made. All (IsResting R.is_local) made.1.items) }
    {
        let (manager, callers) = Manager::prepare(alloc, records, callers, first, roots)?;
        Ok((MichaelList { manager }, callers))
    }

    /// Adds the key where it is absent. `root` is `key` modulo the number of roots, and `key` is at most
    /// 1,099,511,627,773. `budget` is how many hops along the list the call may make.
    ///
    /// `Done(true)`: it was added. `Done(false)`: it was there. `Full { found }`: it was absent, no record was left, and
    /// the one draw found this. `Again { hops }`: one more hop was needed than the budget. After `Full` and `Again`
    /// the set and what the caller has seen of it are as before, and a record that the call took is spare.
    pub fn insert(
        &self,
        caller: &mut Caller<MichaelShape, R>,
        root: u32,
        key: u64,
        budget: u32,
    ) -> InsertAnswer
        requires of { IsPassOf self.now.manager.table caller.old.pass }
        requires caller { IsResting R.is_local caller.old }
        requires home { IsHome (setup_of self.now.manager.table) root key }
        requires key { key ≤ 1099511627773 }
        ensures of { IsPassOf self.now.manager.table caller.new.pass }
        ensures caller { IsResting R.is_local caller.new }
        ensures same { IsSameCaller caller.old.pass caller.new.pass }
        ensures tells { InsertTells key result (view caller.old.pass) (view caller.new.pass) }
        ensures did { (es : List Event) × Inserts root key budget result es
            × GivesBack result es (view caller.old.pass).own (view caller.new.pass).own
            × Trail (manner R.enters R.leaves R.bears R.reaches R.puts_away A.draws A.refuses P.SHELVES P.busy) (setup_of self.now.manager.table) (begun ∷ es ++ ended ∷ []) (view caller.old.pass).own (view caller.new.pass).own }
    {
        let mut guard = self.manager.begin(caller);
        let answer = insert(&mut guard, root, key, budget);
        guard.finish();
        answer
    }

    /// Takes the key away where it is present. `root`, `key` and `budget` are as for `insert`.
    ///
    /// `Done(true)`: this call took it away. `Done(false)`: it was absent. `Again { hops }`: one more hop was needed than
    /// the budget; then the set and what the caller has seen of it are as before.
    pub fn remove(
        &self,
        caller: &mut Caller<MichaelShape, R>,
        root: u32,
        key: u64,
        budget: u32,
    ) -> LookAnswer
        requires of { IsPassOf self.now.manager.table caller.old.pass }
        requires caller { IsResting R.is_local caller.old }
        requires home { IsHome (setup_of self.now.manager.table) root key }
        requires key { key ≤ 1099511627773 }
        ensures of { IsPassOf self.now.manager.table caller.new.pass }
        ensures caller { IsResting R.is_local caller.new }
        ensures same { IsSameCaller caller.old.pass caller.new.pass }
        ensures tells { RemoveTells key result (view caller.old.pass) (view caller.new.pass) }
        ensures did { (es : List Event) × Removes root key budget result es
            × Trail (manner R.enters R.leaves R.bears R.reaches R.puts_away A.draws A.refuses P.SHELVES P.busy) (setup_of self.now.manager.table) (begun ∷ es ++ ended ∷ []) (view caller.old.pass).own (view caller.new.pass).own }
    {
        let mut guard = self.manager.begin(caller);
        let answer = remove(&mut guard, root, key, budget);
        guard.finish();
        answer
    }

    /// Asks whether the key is in the set. `root`, `key` and `budget` are as for `insert`.
    ///
    /// `Done(true)`: it is. `Done(false)`: it isn't. `Again { hops }`: one more hop was needed than the budget; then what
    /// the caller has seen of the set is as before.
    pub fn search(
        &self,
        caller: &mut Caller<MichaelShape, R>,
        root: u32,
        key: u64,
        budget: u32,
    ) -> LookAnswer
        requires of { IsPassOf self.now.manager.table caller.old.pass }
        requires caller { IsResting R.is_local caller.old }
        requires home { IsHome (setup_of self.now.manager.table) root key }
        requires key { key ≤ 1099511627773 }
        ensures of { IsPassOf self.now.manager.table caller.new.pass }
        ensures caller { IsResting R.is_local caller.new }
        ensures same { IsSameCaller caller.old.pass caller.new.pass }
        ensures tells { SearchTells key result (view caller.old.pass) (view caller.new.pass) }
        ensures did { (es : List Event) × Searches root key budget result es
            × Trail (manner R.enters R.leaves R.bears R.reaches R.puts_away A.draws A.refuses P.SHELVES P.busy) (setup_of self.now.manager.table) (begun ∷ es ++ ended ∷ []) (view caller.old.pass).own (view caller.new.pass).own }
    {
        let mut guard = self.manager.begin(caller);
        let answer = search(&mut guard, root, key, budget);
        guard.finish();
        answer
    }
}

impl<R: Scheme, A: Allocator, P: Pool> MichaelList<R, A, P> {
    /// How many lists it has, at least 1: key `k` is in the one with number `k` modulo this.
    pub fn roots(&self) -> u32
        ensures roots { result ≡ (setup_of self.now.manager.table).roots }
        ensures some { 0 < result }
    {
        self.manager.roots()
    }

    /// Begins an operation of this caller, which may hold records of the set by itself. The guard must be spent by
    /// `finish`.
    pub fn begin<'a>(
        &'a self,
        caller: &'a mut Caller<MichaelShape, R>,
    ) -> Guard<'a, MichaelShape, R, A, P>
        requires of { IsPassOf self.now.manager.table caller.old.pass }
        requires caller { IsResting R.is_local caller.old }
        ensures same_reference { result.caller.ghost_name ≡ caller.entry.ghost_name }
        ensures manager { result.manager.now ≡ self.entry.now.manager }
        ensures at_work { IsAtWork result }
        ensures pass { Enters caller.old.pass result.caller.now.pass }
        ensures rest { LeavesRest (view caller.old.pass) (view result.caller.now.pass) }
        ensures locks { (view result.caller.now.pass).own.locks ≡ [] }
        ensures did { (d : Book) × (f : Freed) × R.enters (setup_of self.entry.now.manager.table) (view caller.old.pass).own f d
            × GivesChains P.SHELVES (gives_by P.SHELVES P.busy (setup_of self.entry.now.manager.table)) f d (view result.caller.now.pass).own }
    {
        self.manager.begin(caller)
    }

    /// How often this caller moved records, and how many of its records lie where now.
    pub fn counts(&self, caller: &Caller<MichaelShape, R>) -> Counts
        requires caller { IsResting R.is_local caller.now }
        ensures counts { AreCountsOf result (view caller.now.pass).own }
    {
        self.manager.counts(caller)
    }

    /// Lets the caller `into` learn what the caller `from` has seen: afterwards whatever `from` had seen
    /// comes before each later call of `into`.
    pub fn meet(&self, from: &mut Caller<MichaelShape, R>, into: &mut Caller<MichaelShape, R>)
        requires of { IsPassOf self.now.manager.table from.old.pass × IsPassOf self.now.manager.table into.old.pass }
        requires callers { IsResting R.is_local from.old × IsResting R.is_local into.old }
        ensures of { IsPassOf self.now.manager.table from.new.pass × IsPassOf self.now.manager.table into.new.pass }
        ensures callers { IsResting R.is_local from.new × IsResting R.is_local into.new }
        ensures passes { IsSamePass from.old.pass from.new.pass × IsSamePass into.old.pass into.new.pass }
        ensures unchanged { view from.new.pass ≡ view from.old.pass }
        ensures own { StartsWith (view into.new.pass).front (view into.old.pass).front }
        ensures met { StartsWith (view into.new.pass).front (view from.old.pass).front }
        ensures longer { ((view into.new.pass).front ≡ (view into.old.pass).front) ⊎ ((view into.new.pass).front ≡ (view from.old.pass).front) }
        ensures rest { view into.new.pass ≡ record (view into.old.pass) { front = (view into.new.pass).front } }
    {
        self.manager.meet(from, into);
    }

    /// Ends the set. `callers` has every caller of it in order of number. The closed table has one legal history, in
    /// which each answered call stands once, in its caller's order. The front of each caller begins it.
    pub fn close(self, callers: Vec<Caller<MichaelShape, R>>) -> Closed
        requires { AreAllPasses self.manager.table (passes_of callers.items) }
        ensures setup { closed_setup result ≡ setup_of self.manager.table }
        ensures books { closed_books result ≡ map own_book (passes_of callers.items) }
        ensures fronts { All (BeginsHistory result) (passes_of callers.items) }
        ensures fits { IsClosedBy michael R.facts result }
        ensures moves { AreAddedUp result }
    {
        let MichaelList { manager } = self;
        manager.close(callers)
    }
}
