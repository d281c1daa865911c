// Following links of records that may be marked or taken out.
ghost use Rattle.std.specs.Prelude.{◌≡◌, ℕ, true};
ghost use Rattle.row_words.specs.Packing.{link_in};
ghost use Rattle.record_rule.specs.FrozenLinks.{MayFollow, FollowedLink};
ghost use Rattle.record_table.specs.Handles.{view, is_inside, IsPassOf, IsSamePass};
ghost use Rattle.record_table.specs.Nodes.{origin, HoldsNode, is_first, reach_at};

use crate::nodes::Node;
use crate::passes::Pass;
use crate::table::Table;
use record_rule::{CoversFrozen, Shape};
use row_words::{Link, link_of};
use std::marker::Brand;

impl<S: Shape, R: CoversFrozen> Table<S, R> {
    /// Loads a link of a root or of a held record, marked or not, to hold what it leads to at `place`, which
    /// is below the number of the reclaimer's places. `field` is 3. The pass holds the link's target there
    /// afterwards, even where that was taken out behind the start of the guard; nothing where it has none.
    pub fn reach_frozen(&self, pass: &mut Pass<S, R>, place: u32, from: Node, field: u8) -> Link
        requires pass { IsPassOf self.now pass.old }
        requires inside { is_inside pass.old ≡ true }
        requires from { HoldsNode pass.old from }
        requires field { field ≡ 3 }
        requires link { MayFollow S.facts (view pass.old) (origin from) 3 (is_first pass.old) }
        requires allowed { R.facts.may_reach (view pass.old).own.guard (reach_at pass.old place) }
        ensures pass { IsSamePass pass.old pass.new }
        ensures step { (n : ℕ) × (result ≡ link_in n) × FollowedLink S.facts R.facts (view pass.old) (origin from) 3 (reach_at pass.old place) n (view pass.new) }
    {
        let word = self.word_of(&from, field);
        let found = self.load::<Brand, _>(pass, word, &(from, place));
        link_of(found)
    }
}
