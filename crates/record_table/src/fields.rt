// The owner's steps on the words of a record that it has.
ghost use Rattle.std.specs.Prelude.{◌≡◌, ℕ, ◌<◌, ◌≤◌, length, Some, slice_index_or};
ghost use Rattle.record_memory.specs.declared.books.Share.{Share};
ghost use Rattle.row_words.specs.Packing.{number_in};
ghost use Rattle.record_rule.specs.Kinds.{stored, loaded, share_in, MayStore, EndsHanding, IsKnown, IsOver};
ghost use Rattle.record_table.specs.Handles.{setup_of, view, IsPassOf, IsSamePass};

use crate::passes::Pass;
use crate::table::Table;
use record_rule::{Cover, Shape};
use std::marker::Brand;

impl<S: Shape, R: Cover> Table<S, R> {
    // Stores one word of a record that the caller has.
    pub(crate) fn store_field(&self, pass: &mut Pass<S, R>, index: u32, field: u8, value: u64)
        requires pass { IsPassOf self.now pass.old }
        requires index { (0 < index) × (index ≤ (setup_of self.now).records) }
        requires allowed { (h : Share) × (share_in (view pass.old) index ≡ Some h) × MayStore h field value }
        requires birth { (h : Share) → share_in (view pass.old) index ≡ Some h → EndsHanding h.standing → R.facts.births (view pass.old).own.guard (number_in (slice_index_or h.words 0 0)) }
        ensures pass { IsSamePass pass.old pass.new }
        ensures step { view pass.new ≡ stored (view pass.old) index field value }
        ensures over { (found : ℕ) × IsOver (view pass.old) index field found }
    {
        let word = self.address_of(index, field);
        self.store::<Brand, _>(pass, word, value, &(index, field));
    }

    // Loads one word of a record that the caller has, and finds what it knows.
    pub(crate) fn load_field(&self, pass: &mut Pass<S, R>, index: u32, field: u8) -> u64
        requires pass { IsPassOf self.now pass.old }
        requires index { (0 < index) × (index ≤ (setup_of self.now).records) }
        requires known { (h : Share) × (share_in (view pass.old) index ≡ Some h) × (field < length h.words) × (field < 8) }
        ensures pass { IsSamePass pass.old pass.new }
        ensures step { view pass.new ≡ loaded (view pass.old) index field result }
        ensures found { IsKnown (view pass.old) index field result }
    {
        let word = self.address_of(index, field);
        self.load::<Brand, _>(pass, word, &(index, field))
    }
}
