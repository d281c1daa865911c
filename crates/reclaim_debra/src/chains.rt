// The caller's bags and its free chain through the rows of the table.
ghost use Rattle.std.specs.Prelude.{◌≡◌, ◌++◌, None, length, reverse};
ghost use Rattle.std.specs.List.{count_by, filter};
ghost use Rattle.row_words.specs.declared.links.Chain.{Chain};
ghost use Rattle.limbo_bags.specs.Wholes.{AreApart, is_last, is_reusable};
ghost use Rattle.record_rule.specs.ChainRows.{IsStill};
ghost use Rattle.record_table.specs.Handles.{view, IsPassOf, IsSamePass};
ghost use Rattle.reclaim_api.specs.Chained.{refs_in};
ghost use Rattle.reclaim_api.specs.Owned.{IsRowChain, IsRowKept};

use crate::Debra;
use limbo_bags::move_all;
use record_table::{Pass, Rows, Shape, Table};
use row_words::{Chain, Freed};

// Puts the records of a bag in front of the free ones, but for those that are spent. The bag is empty then.
pub(crate) fn free_bag<S: Shape>(
    table: &Table<S, Debra>,
    pass: &mut Pass<S, Debra>,
    bag: &mut Chain,
    free: &mut Chain,
) -> Freed
    requires pass { IsPassOf table.now pass.old }
    requires bag { IsRowChain table.now pass.old bag.old }
    requires free { IsRowChain table.now pass.old free.old }
    requires apart { AreApart (refs_in (view pass.old) bag.old) (refs_in (view pass.old) free.old) }
    ensures pass { IsSamePass pass.old pass.new }
    ensures still { IsStill (view pass.old) (view pass.new) }
    ensures head { bag.new.head ≡ None }
    ensures empty { bag.new.count ≡ 0 }
    ensures refs { refs_in (view pass.new) free.new ≡ reverse (filter is_reusable (refs_in (view pass.old) bag.old)) ++ refs_in (view pass.old) free.old }
    ensures list { IsRowChain table.now pass.new free.new }
    ensures freed { result.freed ≡ length (refs_in (view pass.old) bag.old) }
    ensures spent { result.spent ≡ count_by is_last (refs_in (view pass.old) bag.old) }
    ensures others { (other : Chain) → IsRowChain table.now pass.old other
        → AreApart (refs_in (view pass.old) other) (refs_in (view pass.old) bag.old)
        → IsRowKept table.now pass.old pass.new other }
{
    let mut rows = Rows { table, pass };
    let freed = move_all(&mut rows, bag, free);
    let Rows { table: _, pass: _ } = rows;
    freed
}
