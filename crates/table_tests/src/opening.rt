// Making the tables of these tests.
ghost use Rattle.std.specs.Prelude.{◌≡◌, ◌↔◌, ◌<◌, IfOk, Err};
ghost use Rattle.set_model.specs.declared.names.SetName.TheVariants.{Michael};
ghost use Rattle.set_model.specs.declared.names.ReclaimerName.TheVariants.{Nothing};
ghost use Rattle.set_model.specs.declared.names.AllocatorName.TheVariants.{Bump as BumpName};
ghost use Rattle.cover_facts.specs.Keeping.{none};
ghost use Rattle.record_table.specs.Handles.{setup_of};
ghost use Rattle.record_table.specs.Closing.{AreAllPasses};
ghost use Rattle.record_table.specs.Made.{AreFreshPasses, setup_with, AreBadRecords, AreBadCallers};

use crate::types::{ListPass, ListTable, MichaelShape};
use reclaim_none::NoReclaim;
use record_table::{PrepareError, prepare};
use row_words::Generation;
use set_model::AllocatorName;
use std::alloc::Global;

/// Makes a table for Michael's list without reclamation, whose records are drawn by `Bump`, with the passes
/// of its callers. Its numbers and its refusals are those of `prepare`.
pub fn open(
    alloc: Global,
    records: u32,
    callers: u32,
    first: Generation,
    roots: u32,
) -> Result<(ListTable, Vec<ListPass>), PrepareError>
    requires { 0 < roots }
    ensures records { (result ≡ Err PrepareError.Records) ↔ AreBadRecords records roots }
    ensures callers { (result ≡ Err PrepareError.Callers) ↔ ((¬ (AreBadRecords records roots)) × AreBadCallers callers) }
    ensures table { IfOk result (λ made. setup_of made.0 ≡ setup_with records roots callers first Michael Nothing BumpName) }
    ensures passes { IfOk result (λ made. AreAllPasses made.0 made.1.items) }
    ensures fresh { IfOk result (λ made. AreFreshPasses made.0 none.first made.1.items) }
{
    prepare::<MichaelShape, NoReclaim>(alloc, records, callers, first, roots, AllocatorName::Bump)
}
