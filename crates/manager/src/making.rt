// Making a manager with its callers, and closing it.
ghost use Rattle.std.specs.Prelude.{◌≡◌, ◌↔◌, ◌<◌, [], ℕ, Err, IfOk, All, map, false};
ghost use Rattle.record_table.specs.Handles.{setup_of, view, is_inside, IsPassOf};
ghost use Rattle.record_table.specs.Made.{IsFresh, AreFreshPasses, setup_with, AreBadRecords, AreBadCallers};
ghost use Rattle.record_table.specs.Closing.{closed_setup, closed_books, own_book, AreAllPasses, IsClosedBy, BeginsHistory};
ghost use Rattle.manager.specs.Callers.{IsResting};
ghost use Rattle.manager.specs.Made.{passes_of, AreAddedUp};

use crate::types::{Caller, Manager, Moved};
use alloc_api::Allocator;
use pool::Pool;
use reclaim_api::Scheme;
use record_table::{Closed, Pass, PrepareError, Shape, Table, prepare};
use row_words::{Chain, Generation};
use std::alloc::{AllocError, Global};
use std::marker::PhantomData;

// The caller of a pass that made no step.
fn seat<S: Shape, R: Scheme>(table: &Table<S, R>, pass: Pass<S, R>) -> Caller<S, R>
    requires fresh { (c : ℕ) × (c < (setup_of table.now).callers) × IsFresh (setup_of table.now) R.facts.first c (view pass) }
    requires outside { is_inside pass ≡ false }
    ensures pass { result.pass ≡ pass }
    ensures caller { IsResting R.is_local result }
{
    let local = R::local(pass.caller(), table.callers());
    Caller {
        pass,
        local,
        free: Chain::new(),
        spare: Chain::new(),
        moved: Moved {
            drawn: 0,
            reused: 0,
            retired: 0,
            freed: 0,
            spent: 0,
        },
    }
}

// The callers of all passes, in the same order.
fn seat_all<S: Shape, R: Scheme>(
    alloc: Global,
    table: &Table<S, R>,
    mut passes: Vec<Pass<S, R>>,
) -> Result<Vec<Caller<S, R>>, AllocError>
    requires fresh { AreFreshPasses table.now R.facts.first passes.items }
    ensures passes { IfOk result (λ callers. passes_of callers.items ≡ passes.items) }
    ensures resting { IfOk result (λ callers. All (IsResting R.is_local) callers.items) }
{
    let mut callers = Vec::with_capacity(alloc, passes.len())?;
    passes.reverse();
    while let Some(pass) = passes.pop() {
        callers.push(seat(table, pass))?;
    }
    Ok(callers)
}

impl<S: Shape, R: Scheme, A: Allocator, P: Pool> Manager<S, R, A, P> {
    /// Makes a manager of a table of `records` records, the first `roots` of them roots, with its
    /// `callers` callers in order of number. A record that is handed out for the first time gets the
    /// generation `first`. `roots` is at least 1. The refusals are those of `record_table::prepare`, in
    /// their order; after one nothing exists.
    pub fn prepare(
        alloc: Global,
        records: u32,
        callers: u32,
        first: Generation,
        roots: u32,
    ) -> Result<(Manager<S, R, A, P>, Vec<Caller<S, R>>), PrepareError>
        requires { 0 < roots }
        ensures records { (result ≡ Err PrepareError.Records) ↔ AreBadRecords records roots }
        ensures callers { (result ≡ Err PrepareError.Callers) ↔ ((¬ (AreBadRecords records roots)) × AreBadCallers callers) }
        ensures table { IfOk result (λ made. setup_of made.0.table ≡ setup_with records roots callers first S.NAME R.NAME A.NAME) }
        ensures passes { IfOk result (λ made. AreAllPasses made.0.table (passes_of made.1.items)) }
        ensures fresh { IfOk result (λ made. AreFreshPasses made.0.table R.facts.first (passes_of made.1.items)) }
        ensures resting { IfOk result (λ made. All (IsResting R.is_local) made.1.items) }
    {
        let (table, passes) = prepare::<S, R>(alloc, records, callers, first, roots, A::NAME)?;
        match seat_all(alloc, &table, passes) {
            Ok(callers) => {
                let manager = Manager {
                    table,
                    marker: PhantomData,
                };
                Ok((manager, callers))
            }
            Err(AllocError) => Err(PrepareError::OutOfMemory),
        }
    }

    /// How many roots it has, at least 1.
    pub fn roots(&self) -> u32
        ensures roots { result ≡ (setup_of self.now.table).roots }
        ensures some { 0 < result }
    {
        self.table.roots()
    }

    /// Closes the table. `callers` has every caller of this manager in order of number. Over all callers and
    /// shelves, as many records were freed as were reused, are free and are spent, and as many are in limbo as
    /// were retired and not freed. The front of each caller begins the table's one history. Where no caller is
    /// inside an operation, no link is locked.
    pub fn close(self, mut callers: Vec<Caller<S, R>>) -> Closed
        requires { AreAllPasses self.table (passes_of callers.items) }
        ensures setup { closed_setup result ≡ setup_of self.table }
        ensures books { closed_books result ≡ map own_book (passes_of callers.items) }
        ensures fronts { All (BeginsHistory result) (passes_of callers.items) }
        ensures fits { IsClosedBy S.facts R.facts result }
        ensures moves { AreAddedUp result }
        ensures unlocked { All (IsResting R.is_local) callers.items → All (λ book. book.locks ≡ []) (closed_books result) }
    {
        let Manager { table, marker: _ } = self;
        callers.reverse();
        let Some(first) = callers.pop() else {
            unreachable!()
        };
        let mut last = first.pass;
        while let Some(caller) = callers.pop() {
            table.absorb(&mut last, caller.pass);
        }
        table.close_last(last)
    }
}
