//! The allocator that gives each caller a range of its own.
//!
//! The ranges lie behind the roots, in order of the callers' numbers, and are equally long. No word is
//! stored by two callers, so that no caller waits for another one's step.
#![tactic(auto)]

ghost use Rattle.std.specs.Prelude.{◌≡◌, MatchResult};
ghost use Rattle.record_table.specs.Handles.{setup_of, view, IsPassOf, IsSamePass};
ghost use Rattle.alloc_api.specs.Drawn.{IsNew, GetsOne, GetsNone};
ghost use Rattle.alloc_once.specs.Ranges.{Draws, Refuses};

use alloc_api::{Allocator, NoRecord};
use record_memory::cursor;
use record_table::{Cover, Pass, Shape, Table};
use row_words::Ref;
use set_model::AllocatorName;

/// Gives caller `c` the records `roots + c * q + 1` to `roots + (c + 1) * q` in order, where `q` is the whole
/// part of `(records - roots) / callers`. Records behind all ranges are never drawn. It makes at most two steps:
/// it loads the caller's own cursor, which counts the records that the caller drew, and where that is below `q`
/// it stores one more there. `NoRecord` comes exactly where that load found `q`, and says so.
pub struct Once;

impl Allocator for Once {
    ghost use Rattle.set_model.specs.declared.names.AllocatorName.TheVariants.{Once as OnceName};

    const NAME: AllocatorName = AllocatorName::Once;

    ghost NAME = { OnceName };

    ghost draws = { Draws };

    ghost refuses = { Refuses };

    fn draw<S: Shape, R: Cover>(
        table: &Table<S, R>,
        pass: &mut Pass<S, R>,
    ) -> Result<Ref, NoRecord> {
        let callers = table.callers();
        let caller = pass.caller();
        let roots = table.roots();
        let range = (table.records() - roots) / callers;
        let drawn = table.load_control(pass, cursor(callers, caller));
        if drawn >= u64::from(range) {
            return Err(NoRecord { found: drawn });
        }
        table.store_cursor(pass, drawn);
        let index = roots + caller * range + drawn as u32 + 1;
        Ok(Ref::new(index, table.first()))
    }
}
