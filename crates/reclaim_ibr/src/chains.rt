// The caller's bag and its free chain through the rows of the table.
ghost use Rattle.std.specs.Prelude.{◌≡◌, ◌++◌, reverse};
ghost use Rattle.std.specs.List.{count_by, filter};
ghost use Rattle.limbo_bags.specs.Wholes.{AreApart, passes, is_freed, is_returned, is_spent};
ghost use Rattle.record_rule.specs.ChainRows.{row_in, IsStill};
ghost use Rattle.record_table.specs.Handles.{view, IsPassOf, IsSamePass};
ghost use Rattle.reclaim_api.specs.Chained.{refs_in};
ghost use Rattle.reclaim_api.specs.Owned.{IsRowChain};
ghost use Rattle.reclaim_ibr.specs.Meeting.{meets};

use crate::Ibr;
use crate::meeting::Met;
use limbo_bags::sift;
use record_table::{Pass, Rows, Shape, Table};
use row_words::{Chain, Freed};

// Puts the records of the bag that none of the intervals meets in front of the free ones, but for those that are spent.
// The others stay in the bag.
pub(crate) fn sift_bag<S: Shape>(
    table: &Table<S, Ibr>,
    pass: &mut Pass<S, Ibr>,
    bag: &mut Chain,
    ends: &[u64],
    free: &mut Chain,
) -> Freed
    requires pass { IsPassOf table.now pass.old }
    requires bag { IsRowChain table.now pass.old bag.old }
    requires free { IsRowChain table.now pass.old free.old }
    requires apart { AreApart (refs_in (view pass.old) bag.old) (refs_in (view pass.old) free.old) }
    ensures pass { IsSamePass pass.old pass.new }
    ensures still { IsStill (view pass.old) (view pass.new) }
    ensures kept { refs_in (view pass.new) bag.new ≡ reverse (filter (passes (meets ends.now) (row_in (view pass.old))) (refs_in (view pass.old) bag.old)) }
    ensures bag_list { IsRowChain table.now pass.new bag.new }
    ensures freed_refs { refs_in (view pass.new) free.new ≡ reverse (filter (is_returned (meets ends.now) (row_in (view pass.old))) (refs_in (view pass.old) bag.old)) ++ refs_in (view pass.old) free.old }
    ensures free_list { IsRowChain table.now pass.new free.new }
    ensures freed { result.freed ≡ count_by (is_freed (meets ends.now) (row_in (view pass.old))) (refs_in (view pass.old) bag.old) }
    ensures spent { result.spent ≡ count_by (is_spent (meets ends.now) (row_in (view pass.old))) (refs_in (view pass.old) bag.old) }
{
    let test = Met { ends };
    let mut rows = Rows { table, pass };
    let freed = sift(&mut rows, bag, &test, free);
    let Rows { table: _, pass: _ } = rows;
    freed
}
