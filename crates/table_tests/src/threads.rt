// Callers that run in threads of their own.
ghost use Rattle.std.specs.Prelude.{◌≡◌, length, IfOk};
ghost use Rattle.record_table.specs.Handles.{view, IsPassOf, IsSamePass};
ghost use Rattle.record_table.specs.Closing.{AreAllPasses, IsWholePassOf, own_caller};

use crate::opening::open;
use record_memory::EPOCH;
use record_table::{Cover, Pass, Shape, Table};
use row_words::Generation;
use std::alloc::AllocError;
use std::test::Fail;
use std::thread;
use std::thread::Threads;

// Loads the epoch a few times, and gives the pass back.
fn look<S: Shape, R: Cover>(table: &Table<S, R>, mut pass: Pass<S, R>) -> Pass<S, R>
    requires { IsWholePassOf table.now pass }
    ensures whole { IsWholePassOf table.now result }
    ensures caller { own_caller result ≡ own_caller pass }
{
    let _epoch = table.load_control(&mut pass, EPOCH);
    pass
}

// Two callers look at the table in two threads.
fn look_both<S: Shape + Send, R: Cover + Send>(
    rt: &impl Threads,
    table: &Table<S, R>,
    first: Pass<S, R>,
    second: Pass<S, R>,
) -> (Pass<S, R>, Pass<S, R>)
    requires first { IsWholePassOf table.now first }
    requires second { IsWholePassOf table.now second }
    ensures first { IsWholePassOf table.now result.0 × (own_caller result.0 ≡ own_caller first) }
    ensures second { IsWholePassOf table.now result.1 × (own_caller result.1 ≡ own_caller second) }
{
    thread::join(rt, || look(table, first), || look(table, second))
}

// Two callers look at the table in two threads, and come back in order of number.
fn look_all<S: Shape + Send, R: Cover + Send>(
    rt: &impl Threads,
    table: &Table<S, R>,
    mut passes: Vec<Pass<S, R>>,
) -> Result<Vec<Pass<S, R>>, AllocError>
    requires all { AreAllPasses table.now passes.items }
    requires two { length passes.items ≡ 2 }
    ensures all { IfOk result (λ passes. AreAllPasses table.now passes.items) }
{
    let (Some(second), Some(first)) = (passes.pop(), passes.pop()) else {
        unreachable!()
    };
    let (first, second) = look_both(rt, table, first, second);
    passes.push(first)?;
    passes.push(second)?;
    Ok(passes)
}

#[test]
fn callers_look_in_two_threads_and_close(rt: HostRuntime) -> Result<(), Fail> {
    let generation = Generation::new(1).ok_or("a generation")?;
    let (table, passes) = open(rt.alloc(), 1, 2, generation, 1)?;
    let passes = look_all(&rt, &table, passes)?;
    let closed = table.close(passes);
    assert_eq!(rt; closed.callers(), 2);
    Ok(())
}
