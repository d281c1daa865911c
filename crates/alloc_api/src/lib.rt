//! Allocators: how a record is drawn for the first time.
//!
//! Records are reused through free chains. An allocator hands out only those that were never handed
//! out before, and knows nothing of reclamation. The split into reclaimer, pool and allocator is that
//! of Brown's record manager.
#![tactic(auto)]

ghost use Rattle.std.specs.Prelude.{◌≡◌, MatchResult};
ghost use Rattle.set_model.specs.declared.names.AllocatorName.{AllocatorName};
ghost use Rattle.record_memory.specs.declared.books.View.{View};
ghost use Rattle.row_words.specs.Refs.{RefParts};
ghost use Rattle.std.specs.Prelude.{ℕ};
ghost use Rattle.record_table.specs.Handles.{setup_of, view, IsPassOf, IsSamePass};
ghost use Rattle.alloc_api.specs.Drawn.{IsNew, GetsOne, GetsNone};

use record_table::{Cover, Pass, Shape, Table};
use row_words::Ref;
use set_model::AllocatorName;

/// No record is left to draw. `found` is the value of the word that shows it.
#[derive(Clone, Copy, Debug, PartialEq, Eq)]
pub struct NoRecord {
    pub found: u64,
}

/// How records are drawn from a table.
pub trait Allocator {
    /// The allocator's name, which the table is made with.
    const NAME: AllocatorName;

    ghost NAME: { AllocatorName };

    // What the steps of a call that gave a record, and of one that found none, make of what the pass
    // knows.
    ghost draws: { View → RefParts → View → Type 0 };

    ghost refuses: { View → ℕ → View → Type 0 };

    /// Draws a record that was never handed out, with its first generation.
    fn draw<S: Shape, R: Cover>(table: &Table<S, R>, pass: &mut Pass<S, R>) -> Result<Ref, NoRecord>
        requires pass { IsPassOf table.now pass.old }
        requires allocator { (setup_of table.now).allocator ≡ NAME }
        ensures pass { IsSamePass pass.old pass.new }
        ensures new { MatchResult result (λ r. IsNew (view pass.old) (view pass.new) r) (λ _. Unit {0}) }
        ensures rest { MatchResult result (λ r. GetsOne (view pass.old) (view pass.new) r) (λ _. GetsNone (view pass.old) (view pass.new)) }
        ensures steps { MatchResult result (λ r. draws (view pass.old) r (view pass.new)) (λ none. refuses (view pass.old) none.found (view pass.new)) };
}
