// Taking free records, to hand them out again.
ghost use Rattle.std.specs.Prelude.{◌≡◌, ◌+◌};
ghost use Rattle.record_rule.specs.Kinds.{idle};
ghost use Rattle.record_rule.specs.HandingOut.{HasDrawn};
ghost use Rattle.record_rule.specs.ChainRows.{row_in};
ghost use Rattle.record_rule.specs.TakesFree.{HasFree, TookFree};
ghost use Rattle.record_table.specs.Handles.{view, IsPassOf, IsSamePass};

use crate::passes::Pass;
use crate::table::Table;
use record_memory::CHAIN;
use record_rule::{Cover, Shape};
use row_words::{Ref, link_of};
use std::marker::Brand;

impl<S: Shape, R: Cover> Table<S, R> {
    /// Takes a free record to hand it out again: from the one load of its chain word on it has its next
    /// generation, and `hand_out` stores its eight words anew. It is never at the last generation. The
    /// answer is its new reference, and the record that its chain word leads to.
    pub fn take_free(&self, pass: &mut Pass<S, R>, r: Ref) -> (Ref, Option<Ref>)
        requires pass { IsPassOf self.now pass.old }
        requires free { HasFree (view pass.old) r }
        ensures pass { IsSamePass pass.old pass.new }
        ensures index { result.0.index ≡ r.index }
        ensures generation { result.0.generation ≡ r.generation + 1 }
        ensures next { result.1 ≡ (row_in (view pass.old) r).next }
        ensures step { TookFree (view pass.old) r (view pass.new) }
        ensures drawn { HasDrawn (view pass.new) result.0 }
        ensures idle { idle (view pass.new).own + 1 ≡ idle (view pass.old).own }
    {
        let word = self.address_of(r.index, CHAIN);
        let found = self.load::<Brand, _>(pass, word, &r);
        let next = link_of(found).target;
        match r.generation.next() {
            Some(generation) => {
                let again = Ref {
                    index: r.index,
                    generation,
                };
                (again, next)
            }
            None => unreachable!(),
        }
    }
}
