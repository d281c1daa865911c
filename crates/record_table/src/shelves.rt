// Steps on the shelves of the pool.
ghost use Rattle.std.specs.Prelude.{◌≡◌, ◌≢◌, ◌<◌, List, MatchOption, MatchResult};
ghost use Rattle.record_memory.specs.declared.steps.StepKind.TheVariants.{Swap, Exchange};
ghost use Rattle.row_words.specs.Refs.{RefParts};
ghost use Rattle.record_rule.specs.Kinds.{made_step};
ghost use Rattle.record_rule.specs.Shelving.{shelf_step, HasFreeChain, TookChain, GaveChain};
ghost use Rattle.record_table.specs.Handles.{view, IsPassOf, IsSamePass};

use crate::passes::Pass;
use crate::table::Table;
use record_memory::shelf as word_of;
use record_rule::{Cover, Shape};
use row_words::{Ref, pack_ref, ref_of};
use std::marker::Brand;

impl<S: Shape, R: Cover> Table<S, R> {
    /// Takes the chain of a shelf of the pool, from 0 to 15, by one step that leaves the shelf empty. From
    /// that step on its 32 records are this caller's, as free ones. The answer is the first of them,
    /// or none where the shelf was empty.
    pub fn take_shelf(&self, pass: &mut Pass<S, R>, shelf: u32) -> Option<Ref>
        requires pass { IsPassOf self.now pass.old }
        requires shelf { shelf < 16 }
        ensures pass { IsSamePass pass.old pass.new }
        ensures step { MatchOption result
            (view pass.new ≡ made_step (view pass.old) (shelf_step (view pass.old) Swap shelf 0 0))
            (λ head. TookChain (view pass.old) shelf head (view pass.new)) }
    {
        let found = self.swap::<Brand>(pass, word_of(shelf) as usize, 0);
        ref_of(found)
    }

    /// Puts a chain of 32 free records of this caller on a shelf of the pool, from 0 to 15, by one step. From that
    /// step on they are this caller's no more. It is refused exactly where the shelf was taken, by the value that it
    /// hands out, and then nothing changed.
    pub fn give_shelf(&self, pass: &mut Pass<S, R>, shelf: u32, head: Ref) -> Result<(), u64>
        requires pass { IsPassOf self.now pass.old }
        requires shelf { shelf < 16 }
        requires chain { (refs : List RefParts) × HasFreeChain (view pass.old) head refs }
        ensures pass { IsSamePass pass.old pass.new }
        ensures step { MatchResult result
            (λ _. (refs : List RefParts) × HasFreeChain (view pass.old) head refs × GaveChain (view pass.old) shelf head refs (view pass.new))
            (λ found. (found ≢ 0) × (view pass.new ≡ made_step (view pass.old) (shelf_step (view pass.old) Exchange shelf found found))) }
    {
        let found = self.exchange::<Brand>(pass, word_of(shelf) as usize, 0, pack_ref(Some(head)));
        if found == 0 { Ok(()) } else { Err(found) }
    }
}
