ghost use Rattle.std.specs.Prelude.{◌≡◌, Some};
ghost use Rattle.record_rule.specs.ChainRows.{OwnsAway};
ghost use Rattle.record_table.specs.Handles.{view, IsPassOf, IsSamePass};

use crate::closing::take_last;
use crate::lists::{add_first, remove_chained};
use crate::opening::open;
use crate::types::{ListPass, ListTable};
use limbo_bags::{pop, push};
use record_table::Rows;
use row_words::{Chain, Generation, Ref};
use std::test::Fail;

// Puts a record that was retired into an empty chain through the rows, and takes it off again.
pub(crate) fn push_and_pop(table: &ListTable, pass: &mut ListPass, r: Ref) -> Option<Ref>
    requires pass { IsPassOf table.now pass.old }
    requires away { OwnsAway (view pass.old) r }
    ensures same { IsSamePass pass.old pass.new }
    ensures record { result ≡ Some r }
{
    let mut chain = Chain::new();
    let mut rows = Rows { table, pass };
    push(&mut rows, &mut chain, r);
    let popped = pop(&mut rows, &mut chain);
    let Rows { table: _, pass: _ } = rows;
    popped
}

#[test]
fn a_chain_goes_through_the_rows(rt: HostRuntime) -> Result<(), Fail> {
    let first = Generation::new(1).ok_or("a generation")?;
    let (table, mut passes) = open(rt.alloc(), 2, 1, first, 1)?;
    let mut pass = take_last(&table, &mut passes).ok_or("a pass")?;
    assert!(rt; add_first(&table, &mut pass, 5));
    assert_eq!(rt; remove_chained(&table, &mut pass), Some(Ref::new(2, first)));
    let closed = table.close_last(pass);
    assert_eq!(rt; closed.words()[0], 2);
    Ok(())
}
