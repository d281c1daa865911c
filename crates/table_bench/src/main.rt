//! Draws and hands out every record of a table, sets each aside, closes the table, and prints how
//! many records were drawn. The number of records is the one argument.
#![tactic(auto)]

ghost use Rattle.std.specs.Prelude.{◌≡◌};
ghost use Rattle.record_table.specs.Handles.{setup_of, IsPassOf, IsSamePass};
ghost use Rattle.set_model.specs.declared.names.AllocatorName.TheVariants.{Bump as BumpName};

use alloc_bump::Bump;
use record_table::PrepareError;
use row_words::Generation;
use std::alloc::Global;
use std::env;
use std::process::ExitCode;
use table_tests::{ListPass, ListTable, draw_aside, open, take_last};

// Draws every record and sets it aside.
fn draw_all(table: &ListTable, pass: &mut ListPass)
    requires pass { IsPassOf table.now pass.old }
    requires allocator { (setup_of table.now).allocator ≡ BumpName }
    ensures pass { IsSamePass pass.old pass.new }
{
    'records: for _ in 0..table.records() {
        if draw_aside::<Bump>(table, pass, None).is_err() {
            return;
        }
    }
}

// The number of records drawn, by the words of the closed table.
fn drawn_of(alloc: Global, records: u32, first: Generation) -> Result<u64, PrepareError> {
    let (table, mut passes) = open(alloc, records, 1, first, 1)?;
    let Some(mut pass) = take_last(&table, &mut passes) else {
        return Ok(0);
    };
    draw_all(&table, &mut pass);
    let closed = table.close_last(pass);
    Ok(closed.words().first().copied().unwrap_or(0))
}

fn records_wanted(rt: &(impl std::rt::Env + AllocGlobal)) -> Option<u32> {
    env::args(rt).ok()?.nth(1)?.as_str().parse::<u32>().ok()
}

fn main(rt: HostRuntime) -> ExitCode {
    let Some(records) = records_wanted(&rt) else {
        return ExitCode::from(2);
    };
    let Some(first) = Generation::new(1) else {
        return ExitCode::from(2);
    };
    match drawn_of(rt.alloc(), records, first) {
        Ok(drawn) => match println!(rt; "drawn {drawn}") {
            Ok(()) => ExitCode::from(0),
            Err(_) => ExitCode::from(7),
        },
        Err(_) => ExitCode::from(8),
    }
}
