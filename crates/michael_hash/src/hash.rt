// The table: its calls, each made in the bucket of its key.
ghost use Rattle.std.specs.Prelude.{◌≡◌, ◌≤◌, ◌<◌, ◌↔◌, ◌++◌, [], ◌∷◌, List, Err, IfOk, All};
ghost use Rattle.set_model.specs.declared.names.SetName.TheVariants.{Michael};
ghost use Rattle.record_table.specs.Handles.{setup_of, view, IsPassOf};
ghost use Rattle.record_table.specs.Made.{AreFreshPasses, setup_with, AreBadRecords, AreBadCallers};
ghost use Rattle.record_table.specs.Closing.{AreAllPasses};
ghost use Rattle.reclaim_api.specs.Guarding.{IsSameCaller};
ghost use Rattle.record_pieces.specs.Events.{Event, begun, ended};
ghost use Rattle.record_pieces.specs.Trails.{Trail};
ghost use Rattle.manager.specs.Callers.{IsResting};
ghost use Rattle.manager.specs.Manners.{manner};
ghost use Rattle.manager.specs.Made.{passes_of};
ghost use Rattle.set_calls.specs.Answers.{InsertTells, RemoveTells, SearchTells};
ghost use Rattle.set_calls.specs.Spares.{GivesBack};
ghost use Rattle.michael_list.specs.Pieces.{Inserts, Removes, Searches};
ghost use Rattle.list_calls.specs.Standing.{IsHome};
ghost use Rattle.set_api.specs.Callers.{AreFreshCallers};
ghost use Rattle.michael_hash.specs.Buckets.{bucket_of};
ghost use Rattle.michael_hash.specs.Callers.{IsWholeCallerOf};

use alloc_api::Allocator;
use manager::Caller;
use michael_list::{MichaelList, MichaelShape};
use pool::Pool;
use reclaim_api::Scheme;
use record_table::PrepareError;
use row_words::Generation;
use set_model::{InsertAnswer, LookAnswer};
use std::alloc::Global;

/// Michael's hash table: one of Michael's lists for each bucket, over the records of one manager. A caller's records are
/// reclaimed by `R`, drawn by `A`, and wait in `P` while they are free. Callers share it, and each call is made by one
/// of them.
#[derive(Drop)]
pub struct MichaelHash<R: Scheme, A: Allocator, P: Pool> {
    // The list with a bucket's number is the bucket.
    pub(crate) lists: MichaelList<R, A, P>,
}

impl<R: Scheme, A: Allocator, P: Pool> MichaelHash<R, A, P> {
    /// Makes an empty table of `buckets` buckets, at least 1, with its `callers` callers, 1 to 64, in order of number. It
    /// has `records` records, at most 1,048,575, of which each bucket takes one as the root of its list. A record that
    /// is handed out for the first time gets the generation `first`.
    ///
    /// `Records`: `records` is less than `buckets` or more than 1,048,575. `Callers`: `records` isn't refused, and
    /// `callers` is 0 or more than 64. `OutOfMemory`: no memory was got. After a refusal nothing exists.
    pub fn prepare(
        alloc: Global,
        records: u32,
        callers: u32,
        first: Generation,
        buckets: u32,
    ) -> Result<(MichaelHash<R, A, P>, Vec<Caller<MichaelShape, R>>), PrepareError>
        requires { 0 < buckets }
        ensures records { (result ≡ Err PrepareError.Records) ↔ AreBadRecords records buckets }
        ensures callers { (result ≡ Err PrepareError.Callers) ↔ ((¬ (AreBadRecords records buckets)) × AreBadCallers callers) }
        ensures table { IfOk result (λ made. setup_of made.0.lists.manager.table ≡ setup_with records buckets callers first Michael R.NAME A.NAME) }
        ensures passes { IfOk result (λ made. AreAllPasses made.0.lists.manager.table (passes_of made.1.items)) }
        ensures fresh { IfOk result (λ made. AreFreshPasses made.0.lists.manager.table R.facts.first (passes_of made.1.items)) }
        ensures resting { IfOk result (λ made. All (IsResting R.is_local) made.1.items) }
        ensures started { IfOk result (λ made. AreFreshCallers (IsWholeCallerOf R.is_local made.0.lists.manager.table) (λ caller. view caller.pass) (setup_of made.0.lists.manager.table) R.facts.first made.1.items) }
    {
        let (lists, callers) = MichaelList::prepare(alloc, records, callers, first, buckets)?;
        Ok((MichaelHash { lists }, callers))
    }

    // The number of the bucket that this key is in.
    fn bucket(&self, key: u64) -> u32
        ensures bucket { result ≡ bucket_of (setup_of self.now.lists.manager.table) key }
        ensures home { IsHome (setup_of self.now.lists.manager.table) result key }
    {
        (key % u64::from(self.lists.roots())) as u32
    }

    /// Adds the key where it is absent. `key` is at most 1,099,511,627,773. `budget` is how many hops along the list of
    /// its bucket the call may make.
    ///
    /// `Done(true)`: it was added. `Done(false)`: it was there. `Full { found }`: it was absent, no record was left, and
    /// the one draw found this. `Again { hops }`: one more hop was needed than the budget. After `Full` and `Again`
    /// the set and what the caller has seen of it are as before, and a record that the call took is spare.
    pub fn insert(
        &self,
        caller: &mut Caller<MichaelShape, R>,
        key: u64,
        budget: u32,
    ) -> InsertAnswer
        requires of { IsPassOf self.now.lists.manager.table caller.old.pass }
        requires caller { IsResting R.is_local caller.old }
        requires key { key ≤ 1099511627773 }
        ensures of { IsPassOf self.now.lists.manager.table caller.new.pass }
        ensures caller { IsResting R.is_local caller.new }
        ensures same { IsSameCaller caller.old.pass caller.new.pass }
        ensures tells { InsertTells key result (view caller.old.pass) (view caller.new.pass) }
        ensures did { (es : List Event) × Inserts (bucket_of (setup_of self.now.lists.manager.table) key) key budget result es
            × GivesBack result es (view caller.old.pass).own (view caller.new.pass).own
            × Trail (manner R.enters R.leaves R.bears R.reaches R.puts_away A.draws A.refuses P.SHELVES P.busy) (setup_of self.now.lists.manager.table) (begun ∷ es ++ ended ∷ []) (view caller.old.pass).own (view caller.new.pass).own }
    {
        self.lists.insert(caller, self.bucket(key), key, budget)
    }

    /// Takes the key away where it is present. `key` and `budget` are as for `insert`.
    ///
    /// `Done(true)`: this call took it away. `Done(false)`: it was absent. `Again { hops }`: one more hop was needed than
    /// the budget; then the set and what the caller has seen of it are as before.
    pub fn remove(&self, caller: &mut Caller<MichaelShape, R>, key: u64, budget: u32) -> LookAnswer
        requires of { IsPassOf self.now.lists.manager.table caller.old.pass }
        requires caller { IsResting R.is_local caller.old }
        requires key { key ≤ 1099511627773 }
        ensures of { IsPassOf self.now.lists.manager.table caller.new.pass }
        ensures caller { IsResting R.is_local caller.new }
        ensures same { IsSameCaller caller.old.pass caller.new.pass }
        ensures tells { RemoveTells key result (view caller.old.pass) (view caller.new.pass) }
        ensures did { (es : List Event) × Removes (bucket_of (setup_of self.now.lists.manager.table) key) key budget result es
            × Trail (manner R.enters R.leaves R.bears R.reaches R.puts_away A.draws A.refuses P.SHELVES P.busy) (setup_of self.now.lists.manager.table) (begun ∷ es ++ ended ∷ []) (view caller.old.pass).own (view caller.new.pass).own }
    {
        self.lists.remove(caller, self.bucket(key), key, budget)
    }

    /// Asks whether the key is in the set. `key` and `budget` are as for `insert`.
    ///
    /// `Done(true)`: it is. `Done(false)`: it isn't. `Again { hops }`: one more hop was needed than the budget; then what
    /// the caller has seen of the set is as before.
    pub fn search(&self, caller: &mut Caller<MichaelShape, R>, key: u64, budget: u32) -> LookAnswer
        requires of { IsPassOf self.now.lists.manager.table caller.old.pass }
        requires caller { IsResting R.is_local caller.old }
        requires key { key ≤ 1099511627773 }
        ensures of { IsPassOf self.now.lists.manager.table caller.new.pass }
        ensures caller { IsResting R.is_local caller.new }
        ensures same { IsSameCaller caller.old.pass caller.new.pass }
        ensures tells { SearchTells key result (view caller.old.pass) (view caller.new.pass) }
        ensures did { (es : List Event) × Searches (bucket_of (setup_of self.now.lists.manager.table) key) key budget result es
            × Trail (manner R.enters R.leaves R.bears R.reaches R.puts_away A.draws A.refuses P.SHELVES P.busy) (setup_of self.now.lists.manager.table) (begun ∷ es ++ ended ∷ []) (view caller.old.pass).own (view caller.new.pass).own }
    {
        self.lists.search(caller, self.bucket(key), key, budget)
    }
}
