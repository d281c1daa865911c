// Making a table with its passes.
ghost use Rattle.std.specs.Prelude.{◌≡◌, ◌↔◌, ◌⊎◌, ◌<◌, ◌≤◌, IfOk, Err, length};
ghost use Rattle.record_rule.specs.Records.{IsSetup};
ghost use Rattle.record_table.specs.Handles.{setup_of};
ghost use Rattle.record_table.specs.Closing.{AreAllPasses};
ghost use Rattle.record_table.specs.Made.{AreFreshPasses, setup_with, AreBadRecords, AreBadCallers};

use crate::opening::laid_words;
use crate::passes::{Gives, Pass};
use crate::table::Table;
use record_memory::Setup;
use record_rule::{Cover, Shape};
use row_words::Generation;
use set_model::AllocatorName;
use std::alloc::{AllocError, AllocFailed, Global};
use std::marker::PhantomData;
use std::snapshot::Snapshot;
use thiserror::Error;

/// The greatest number of records.
const MOST_RECORDS: u32 = 1_048_575;

/// The greatest number of callers.
const MOST_CALLERS: u32 = 64;

/// Why a table isn't made.
#[derive(Debug, PartialEq, Eq, Drop, Error)]
pub enum PrepareError {
    /// There are fewer records than roots, or more than 1,048,575.
    #[error("bad number of records")]
    Records,
    /// There is no caller, or there are too many.
    #[error("bad number of callers")]
    Callers,
    /// Memory ran out.
    #[error("out of memory")]
    OutOfMemory,
}

impl<S: Shape, R: Cover> Table<S, R> {
    ghost use Rattle.std.specs.Prelude.{◌≡◌, ◌<◌, ◌∷◌, List, IfOk};
    ghost use Rattle.record_memory.specs.declared.books.Book.{Book};
    ghost use Rattle.record_rule.specs.Opening.{first_view};
    ghost use Rattle.record_rule.specs.Splits.{split_left, split_right};
    ghost use Rattle.record_table.specs.Handles.{setup_of, view, IsPassOf, IsSamePass};
    ghost use Rattle.record_table.specs.Made.{AreFreshPasses, IsOutside};

    // Gives the first book that isn't the pass's own to a new pass, which is that caller's.
    fn split_pass(&self, pass: &mut Pass<S, R>, caller: u32) -> Pass<S, R>
        requires pass { IsPassOf self.now pass.old }
        requires counted { caller < (setup_of self.now).callers }
        requires next { (b : Book) × (bs : List Book) × ((view pass.old).others ≡ b ∷ bs) × (b.caller ≡ caller) }
        ensures pass { IsPassOf self.now pass.new }
        ensures left { view pass.new ≡ split_left (view pass.old) }
        ensures new { IsPassOf self.now result }
        ensures right { view result ≡ split_right (view pass.old) }
        ensures outside { IsOutside result }
    {
        let seat = self.split::<Gives>(&mut pass.seat);
        Pass {
            since: Snapshot::of(&seat),
            inside: Snapshot::of(&false),
            seat,
            caller,
            marker: PhantomData,
        }
    }

    // The passes of all callers, split off caller 0's in order of number.
    fn split_all(&self, alloc: Global, mut first: Pass<S, R>) -> Result<Vec<Pass<S, R>>, AllocError>
        requires pass { IsPassOf self.now first }
        requires first { view first ≡ first_view R.facts.first (setup_of self.now) }
        ensures { IfOk result (λ passes. AreFreshPasses self.now R.facts.first passes.items) }
    {
        let mut passes = Vec::with_capacity(alloc, self.setup.callers as usize)?;
        for caller in 1..self.setup.callers {
            let pass = self.split_pass(&mut first, caller);
            passes.push(pass)?;
        }
        first.since = Snapshot::of(&first.seat);
        first.inside = Snapshot::of(&false);
        passes.insert(0, first)?;
        Ok(passes)
    }
}

// Lays the words, makes the table over them and splits off the passes.
fn make<S: Shape, R: Cover>(
    alloc: Global,
    setup: Setup,
    first: Generation,
) -> Result<(Table<S, R>, Vec<Pass<S, R>>), AllocError>
    requires numbers { IsSetup setup }
    requires first { first ≡ setup.first }
    requires set { setup.set ≡ S.NAME }
    requires reclaimer { setup.reclaimer ≡ R.NAME }
    ensures table { IfOk result (λ made. setup_of made.0 ≡ setup) }
    ensures passes { IfOk result (λ made. AreAllPasses made.0 made.1.items) }
    ensures fresh { IfOk result (λ made. AreFreshPasses made.0 R.facts.first made.1.items) }
{
    let room = laid_words(alloc, &setup)?;
    let (table, seat) = Table::over(alloc, room, setup, first)?;
    let pass = Pass {
        since: Snapshot::of(&seat),
        inside: Snapshot::of(&false),
        seat,
        caller: 0,
        marker: PhantomData,
    };
    let passes = table.split_all(alloc, pass)?;
    Ok((table, passes))
}

/// Makes a table of `records` records, the first `roots` of them roots, with the passes of `callers`
/// callers in order of number. A record that is handed out for the first time gets the generation
/// `first`. The table keeps the names of the set, the reclaimer and the allocator for contracts alone: with `Bump` no cursor is stored, with
/// `Once` the word that counts the records drawn isn't changed.
///
/// `roots` is at least 1. The refusals come in this order: `Records` exactly where `records` is below
/// `roots` or above 1,048,575, `Callers` exactly where `callers` is 0 or above 64, and `OutOfMemory`.
/// After a refusal nothing exists.
pub fn prepare<S: Shape, R: Cover>(
    alloc: Global,
    records: u32,
    callers: u32,
    first: Generation,
    roots: u32,
    allocator: AllocatorName,
) -> Result<(Table<S, R>, Vec<Pass<S, R>>), PrepareError>
    requires { 0 < roots }
    ensures records { (result ≡ Err PrepareError.Records) ↔ AreBadRecords records roots }
    ensures callers { (result ≡ Err PrepareError.Callers) ↔ ((¬ (AreBadRecords records roots)) × AreBadCallers callers) }
    ensures table { IfOk result (λ made. setup_of made.0 ≡ setup_with records roots callers first S.NAME R.NAME allocator) }
    ensures passes { IfOk result (λ made. AreAllPasses made.0 made.1.items) }
    ensures fresh { IfOk result (λ made. AreFreshPasses made.0 R.facts.first made.1.items) }
{
    if records < roots || records > MOST_RECORDS {
        return Err(PrepareError::Records);
    }
    if callers == 0 || callers > MOST_CALLERS {
        return Err(PrepareError::Callers);
    }
    let setup = Setup {
        records,
        roots,
        callers,
        first: first.get(),
        set: S::NAME,
        reclaimer: R::NAME,
        allocator,
    };
    match make(alloc, setup, first) {
        Ok(made) => Ok(made),
        Err(AllocError) => Err(PrepareError::OutOfMemory),
    }
}
