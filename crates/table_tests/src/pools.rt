// Pools over a table.
ghost use Rattle.std.specs.Prelude.{◌≡◌};
ghost use Rattle.record_table.specs.Handles.{IsPassOf, IsSamePass};

use crate::opening::open;
use crate::types::MichaelShape;
use pool::{Given, NoPool, Pool, Taken};
use reclaim_none::NoReclaim;
use record_table::{Cover, Pass, Shape, Table};
use row_words::{Chain, Generation};
use std::test::Fail;

// Asks any pool for a chain.
fn ask<S: Shape, R: Cover, P: Pool>(table: &Table<S, R>, pass: &mut Pass<S, R>) -> Taken
    requires { IsPassOf table.now pass.old }
    ensures { IsSamePass pass.old pass.new }
{
    P::take(table, pass)
}

#[test]
fn a_pool_without_shelves_keeps_nothing(rt: HostRuntime) -> Result<(), Fail> {
    let first = Generation::new(1).ok_or("a generation")?;
    let (table, mut passes) = open(rt.alloc(), 1, 1, first, 1)?;
    let pass = passes.last_mut().ok_or("a pass")?;
    assert!(rt; ask::<MichaelShape, NoReclaim, NoPool>(&table, pass) == Taken::None);
    let kept = NoPool::give(&table, pass, Chain::new());
    assert!(rt; kept == Given::Kept(Chain::new()));
    assert_eq!(rt; NoPool::SHELVES, 0);
    Ok(())
}
