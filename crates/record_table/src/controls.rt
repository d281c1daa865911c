// Steps on control words.
ghost use Rattle.std.specs.Prelude.{◌≡◌, ℕ, ◌<◌, MatchResult};
ghost use Rattle.set_model.specs.declared.names.AllocatorName.TheVariants.{Bump, Once};
ghost use Rattle.record_memory.specs.declared.books.Drawing.TheVariants.{Below};
ghost use Rattle.record_memory.specs.declared.steps.StepKind.TheVariants.{Exchange};
ghost use Rattle.record_memory.specs.declared.steps.Word.TheVariants.{Drawn};
ghost use Rattle.record_memory.specs.Memory.{address, controls, word_at};
ghost use Rattle.record_rule.specs.ControlSteps.{MayStoreControl, StoredControl, MayExchangeControl};
ghost use Rattle.record_rule.specs.Freeing.{LoadedBy};
ghost use Rattle.record_rule.specs.Kinds.{ShowsBelow, drew, DrewNew, made_step, control_step};
ghost use Rattle.record_rule.specs.OwnDraws.{ShowsDrawn, drew_own, DrewOwn};
ghost use Rattle.record_rule.specs.World.{range};
ghost use Rattle.record_table.specs.Handles.{setup_of, view, IsPassOf, IsSamePass};

use crate::passes::Pass;
use crate::table::Table;
use record_memory::cursor;
use record_rule::{Cover, Shape};
use std::marker::Brand;

impl<S: Shape, R: Cover> Table<S, R> {
    /// Loads a control word. By a load of the epoch or of an announcement the reclaimer learns, and records of
    /// this caller's limbo may be free from then on; every other word leaves all that it knows of records.
    pub fn load_control(&self, pass: &mut Pass<S, R>, word: u32) -> u64
        requires pass { IsPassOf self.now pass.old }
        requires control { word < controls (setup_of self.now).callers }
        ensures pass { IsSamePass pass.old pass.new }
        ensures step { LoadedBy R.facts (view pass.old) (word_at (view pass.old).setup.callers word) word result (view pass.new) }
        ensures below { ShowsBelow (view pass.old) word result }
        ensures cursor { ShowsDrawn (view pass.old) word result }
    {
        self.load::<Brand, _>(pass, word as usize, &())
    }

    /// Stores a value in a control word, where the reclaimer allows that: in one of its caller's own
    /// announcement words.
    pub fn store_control(&self, pass: &mut Pass<S, R>, word: u32, value: u64)
        requires pass { IsPassOf self.now pass.old }
        requires control { word < controls (setup_of self.now).callers }
        requires allowed { MayStoreControl R.facts (view pass.old) (word_at (view pass.old).setup.callers word) value }
        ensures pass { IsSamePass pass.old pass.new }
        ensures step { (found : ℕ) × StoredControl R.facts (view pass.old) (word_at (view pass.old).setup.callers word) value found (view pass.new) }
    {
        self.store::<Brand, _>(pass, word as usize, value, &());
    }

    /// Adds 1 to the control word that counts the records drawn, and gives the value that it found.
    /// `Bump` allows this to a caller whose last step found that word below the number of records. Where
    /// it still is, the record behind those drawn is the caller's from this step on.
    pub fn add_control(&self, pass: &mut Pass<S, R>, word: u32) -> u64
        requires pass { IsPassOf self.now pass.old }
        requires drawn { word ≡ address (setup_of self.now).callers Drawn }
        requires bump { (setup_of self.now).allocator ≡ Bump }
        requires below { (view pass.old).own.drawing ≡ Below }
        ensures pass { IsSamePass pass.old pass.new }
        ensures step { view pass.new ≡ drew (view pass.old) result }
        ensures new { DrewNew (view pass.old) result }
    {
        self.add::<Brand>(pass, word as usize, 1)
    }

    /// Stores `drawn` + 1 in the caller's own cursor. `Once` allows this to a caller that drew `drawn` records, fewer
    /// than its range has. The next record of its range is the caller's from this step on.
    pub fn store_cursor(&self, pass: &mut Pass<S, R>, drawn: u64)
        requires pass { IsPassOf self.now pass.old }
        requires once { (setup_of self.now).allocator ≡ Once }
        requires drawn { drawn ≡ (view pass.old).own.moves.drawn }
        requires left { drawn < range (setup_of self.now) }
        ensures pass { IsSamePass pass.old pass.new }
        ensures step { view pass.new ≡ drew_own (view pass.old) drawn }
        ensures new { DrewOwn (view pass.old) drawn }
    {
        let word = cursor(self.setup.callers, pass.caller);
        self.store::<Brand, _>(pass, word as usize, drawn + 1, &drawn);
    }

    /// Exchanges a control word from `expected` to `new`, where the reclaimer allows that: the epoch. It is refused
    /// exactly where the word held another value, which it hands out, and then nothing changed.
    pub fn exchange_control(
        &self,
        pass: &mut Pass<S, R>,
        word: u32,
        expected: u64,
        new: u64,
    ) -> Result<(), u64>
        requires pass { IsPassOf self.now pass.old }
        requires control { word < controls (setup_of self.now).callers }
        requires allowed { MayExchangeControl R.facts (view pass.old) (word_at (view pass.old).setup.callers word) expected new }
        ensures pass { IsSamePass pass.old pass.new }
        ensures step { MatchResult result
            (λ _. view pass.new ≡ made_step (view pass.old) (control_step (view pass.old) Exchange word expected new))
            (λ found. (found ≡ expected → ⊥) × (view pass.new ≡ made_step (view pass.old) (control_step (view pass.old) Exchange word found found))) }
    {
        let found = self.exchange::<Brand>(pass, word as usize, expected, new);
        if found == expected {
            Ok(())
        } else {
            Err(found)
        }
    }
}
