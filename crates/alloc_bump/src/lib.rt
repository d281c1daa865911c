//! The allocator that counts the records drawn in one shared word.
//!
//! A call looks at the word first, so that it adds to it only while a record seems to be left. So each
//! caller goes past the last record at most once, and the word never wraps.
#![tactic(auto)]

ghost use Rattle.std.specs.Prelude.{◌≡◌, ◌+◌, ◌<◌, ◌≤◌, MatchResult};
ghost use Rattle.record_table.specs.Handles.{setup_of, view, IsPassOf, IsSamePass};
ghost use Rattle.alloc_api.specs.Drawn.{IsNew, GetsOne, GetsNone};
ghost use Rattle.alloc_bump.specs.Bumps.{Draws, Refuses};

use alloc_api::{Allocator, NoRecord};
use record_memory::DRAWN;
use record_table::{Cover, Pass, Shape, Table};
use row_words::Ref;
use set_model::AllocatorName;

/// Draws the records in order. It makes at most two steps: it loads the word that counts the records
/// drawn, and where a record is left it adds 1 to it. `NoRecord` comes exactly where one of these steps
/// found the number of records or more, and says what it found.
pub struct Bump;

impl Allocator for Bump {
    ghost use Rattle.set_model.specs.declared.names.AllocatorName.TheVariants.{Bump as BumpName};

    const NAME: AllocatorName = AllocatorName::Bump;

    ghost NAME = { BumpName };

    ghost draws = { Draws };

    ghost refuses = { Refuses };

    fn draw<S: Shape, R: Cover>(
        table: &Table<S, R>,
        pass: &mut Pass<S, R>,
    ) -> Result<Ref, NoRecord> {
        let records = u64::from(table.records());
        let seen = table.load_control(pass, DRAWN);
        if seen >= records {
            return Err(NoRecord { found: seen });
        }
        let found = table.add_control(pass, DRAWN);
        if found >= records {
            return Err(NoRecord { found });
        }
        Ok(Ref::new(found as u32 + 1, table.first()))
    }
}
