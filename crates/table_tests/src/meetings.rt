// Callers that meet.
ghost use Rattle.std.specs.Prelude.{◌≡◌, ◌<◌, length, slice_index};
ghost use Rattle.record_rule.specs.World.{StartsWith};
ghost use Rattle.record_table.specs.Handles.{view, IsPassOf};
ghost use Rattle.record_table.specs.Closing.{AreAllPasses};

use crate::opening::open;
use record_table::{Cover, Pass, Shape, Table};
use row_words::Generation;
use set_history::meet;
use std::test::Fail;

// The first caller meets into the last one.
fn meet_ends<S: Shape, R: Cover>(table: &Table<S, R>, passes: &mut [Pass<S, R>])
    requires all { AreAllPasses table.now passes.old }
    requires two { 1 < length passes.old }
    ensures all { AreAllPasses table.now passes.new }
{
    let last = passes.len() - 1;
    let (front, back) = passes.split_at_mut(last);
    meet(table, &mut front[0], &mut back[0]);
}

// What the first caller has seen reaches the third one through the second.
fn meet_in_a_row<S: Shape, R: Cover>(
    table: &Table<S, R>,
    first: &mut Pass<S, R>,
    second: &mut Pass<S, R>,
    third: &mut Pass<S, R>,
)
    requires first { IsPassOf table.now first.old }
    requires second { IsPassOf table.now second.old }
    requires third { IsPassOf table.now third.old }
    ensures { StartsWith (view third.new).front (view first.old).front }
{
    meet(table, first, second);
    meet(table, second, third);
}

#[test]
fn the_most_callers_meet_and_close(rt: HostRuntime) -> Result<(), Fail> {
    let first = Generation::new(1).ok_or("a generation")?;
    let (table, mut passes) = open(rt.alloc(), 1, 64, first, 1)?;
    meet_ends(&table, passes.as_mut_slice());
    let closed = table.close(passes);
    assert_eq!(rt; closed.callers(), 64);
    assert_eq!(rt; closed.words().len(), 348);
    Ok(())
}
