// A caller's chains of retired records through the rows of the table.
ghost use Rattle.std.specs.Prelude.{◌≡◌, ◌∷◌};
ghost use Rattle.row_words.specs.declared.links.Chain.{Chain};
ghost use Rattle.limbo_bags.specs.Chains.{IsApart};
ghost use Rattle.record_rule.specs.Asides.{chain_word};
ghost use Rattle.record_rule.specs.ChainRows.{OwnsAway, IsStill};
ghost use Rattle.record_rule.specs.Kinds.{stored};
ghost use Rattle.record_table.specs.Handles.{view, IsPassOf, IsSamePass};
ghost use Rattle.reclaim_api.specs.Chained.{refs_in};
ghost use Rattle.reclaim_api.specs.Owned.{IsRowChain, IsRowKept};

use limbo_bags::push;
use record_table::{Cover, Pass, Rows, Shape, Table};
use row_words::{Chain, Ref};

/// Puts a record that the caller retired in front of a bag of such records, which hasn't it yet.
pub fn put_first<S: Shape, R: Cover>(
    table: &Table<S, R>,
    pass: &mut Pass<S, R>,
    bag: &mut Chain,
    r: Ref,
)
    requires pass { IsPassOf table.now pass.old }
    requires bag { IsRowChain table.now pass.old bag.old }
    requires owned { OwnsAway (view pass.old) r }
    requires apart { IsApart r (refs_in (view pass.old) bag.old) }
    ensures pass { IsSamePass pass.old pass.new }
    ensures still { IsStill (view pass.old) (view pass.new) }
    ensures refs { refs_in (view pass.new) bag.new ≡ r ∷ refs_in (view pass.old) bag.old }
    ensures list { IsRowChain table.now pass.new bag.new }
    ensures others { (other : Chain) → IsRowChain table.now pass.old other
        → IsApart r (refs_in (view pass.old) other)
        → IsRowKept table.now pass.old pass.new other }
    ensures made { view pass.new ≡ stored (view pass.old) r.index 1 (chain_word r.generation bag.old.head) }
{
    let mut rows = Rows { table, pass };
    push(&mut rows, bag, r);
    let Rows { table: _, pass: _ } = rows;
}
