// Own records that aren't used, and spare ones.
ghost use Rattle.std.specs.Prelude.{◌≡◌, ◌+◌, ◌<◌, ◌≤◌, ℕ, List, Some, slice_index_or, slice_set};
ghost use Rattle.record_memory.specs.declared.books.Share.{Share};
ghost use Rattle.record_memory.specs.declared.books.Standing.TheVariants.{Own as OwnStanding, Spare};
ghost use Rattle.row_words.specs.Packing.{own_in};
ghost use Rattle.record_rule.specs.Records.{IsLinkIn};
ghost use Rattle.record_rule.specs.Kinds.{idle, share_in, IsKnown, IsOver};
ghost use Rattle.record_rule.specs.HandingOut.{HasOwn, IsOwnOf};
ghost use Rattle.record_rule.specs.Asides.{put_aside, took_spare, chain_word, next_in, HasSpare, IsSpareOf};
ghost use Rattle.record_table.specs.Handles.{setup_of, view, IsPassOf, IsSamePass};

use crate::hand_out::Own;
use crate::passes::Pass;
use crate::table::Table;
use record_memory::CHAIN;
use record_rule::{Cover, Shape};
use row_words::{Link, Ref, link_of, pack_link};
use std::marker::Brand;

impl<S: Shape, R: Cover> Table<S, R> {
    // Stores the chain word of an own record, which is spare from then on.
    fn store_aside(&self, pass: &mut Pass<S, R>, index: u32, value: u64)
        requires pass { IsPassOf self.now pass.old }
        requires index { (0 < index) × (index ≤ (setup_of self.now).records) }
        requires own { (h : Share) × (share_in (view pass.old) index ≡ Some h) × (h.standing ≡ OwnStanding) × (own_in value ≡ h.generation) }
        requires link { IsLinkIn 1 value }
        ensures pass { IsSamePass pass.old pass.new }
        ensures step { view pass.new ≡ put_aside (view pass.old) index value }
    {
        let word = self.address_of(index, CHAIN);
        self.store::<Brand, _>(pass, word, value, &index);
    }

    // Loads the chain word of a spare record, which is own from then on.
    fn load_spare(&self, pass: &mut Pass<S, R>, index: u32) -> u64
        requires pass { IsPassOf self.now pass.old }
        requires index { (0 < index) × (index ≤ (setup_of self.now).records) }
        requires spare { (h : Share) × (share_in (view pass.old) index ≡ Some h) × (h.standing ≡ Spare) }
        ensures pass { IsSamePass pass.old pass.new }
        ensures step { view pass.new ≡ took_spare (view pass.old) index result }
        ensures found { IsKnown (view pass.old) index 1 result }
    {
        let word = self.address_of(index, CHAIN);
        self.load::<Brand, _>(pass, word, &index)
    }
}

impl<S: Shape, R: Cover> Table<S, R> {
    /// Sets an own record aside that isn't used: from the one store of its chain word on it is spare.
    /// `next` is the record that its chain word then leads to. Its generation and its other words stay.
    pub fn set_aside(&self, pass: &mut Pass<S, R>, own: Own, next: Option<Ref>) -> Ref
        requires pass { IsPassOf self.now pass.old }
        requires own { IsOwnOf (view pass.old) own }
        ensures pass { IsSamePass pass.old pass.new }
        ensures record { result ≡ own }
        ensures step { view pass.new ≡ put_aside (view pass.old) own.index (chain_word own.generation next) }
        ensures spare { (row : List ℕ) → HasOwn (view pass.old) own row → HasSpare (view pass.new) own (slice_set row 1 (chain_word own.generation next)) }
        ensures is_spare { IsSpareOf (view pass.new) own }
        ensures idle { idle (view pass.new).own ≡ idle (view pass.old).own + 1 }
    {
        let Own { record } = own;
        let value = pack_link(record.generation.get(), Link::to(next));
        self.store_aside(pass, record.index, value);
        record
    }

    /// Takes a spare record again: from the one load of its chain word on it is own. It isn't handed out
    /// anew, so its generation and all of its words stay. The answer's second part is the record that its
    /// chain word leads to.
    pub fn take_spare(&self, pass: &mut Pass<S, R>, r: Ref) -> (Own, Option<Ref>)
        requires pass { IsPassOf self.now pass.old }
        requires spare { IsSpareOf (view pass.old) r }
        ensures pass { IsSamePass pass.old pass.new }
        ensures record { result.0 ≡ r }
        ensures step { (row : List ℕ) → HasSpare (view pass.old) r row → view pass.new ≡ took_spare (view pass.old) r.index (slice_index_or row 1 0) }
        ensures own { (row : List ℕ) → HasSpare (view pass.old) r row → HasOwn (view pass.new) r row }
        ensures is_own { IsOwnOf (view pass.new) r }
        ensures next { (row : List ℕ) → HasSpare (view pass.old) r row → result.1 ≡ next_in row }
        ensures idle { idle (view pass.new).own + 1 ≡ idle (view pass.old).own }
    {
        let found = self.load_spare(pass, r.index);
        let next = link_of(found).target;
        (Own { record: r }, next)
    }
}
