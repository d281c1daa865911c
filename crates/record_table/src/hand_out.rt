// Handing records out, and storing in own records.
ghost use Rattle.std.specs.Prelude.{◌≡◌, ◌<◌, ◌^◌};

use crate::passes::Pass;
use crate::table::Table;
use record_memory::{BIRTH, CHAIN, OF_RECORD};
use record_rule::{Cover, Shape};
use row_words::{Ref, pack_number};
use std::marker::Model;

/// A record that was handed out to this caller and isn't linked. It must be spent. Contracts see it
/// as its reference.
pub struct Own {
    pub(crate) record: Ref,
}

impl Model for Own {
    ghost use Rattle.row_words.specs.Refs.{RefParts};

    ghost Value = { RefParts };

    ghost view = { λ o. o.record };
}

impl Own {
    /// The record.
    pub fn reference(&self) -> Ref
        ensures { result ≡ self.now }
    {
        self.record
    }
}

impl<S: Shape, R: Cover> Table<S, R> {
    ghost use Rattle.std.specs.Prelude.{◌≡◌, ℕ, ◌+◌, ◌-◌, ◌<◌, ◌≤◌, ◌^◌, Some};
    ghost use Rattle.record_rule.specs.HandingOut.{HasDrawn, HasOwn, handed_out, fresh_row};
    ghost use Rattle.record_table.specs.Handles.{view, IsPassOf, IsSamePass};

    /// Hands out a record that this pass drew and hasn't handed out: stores its eight words anew
    /// under `r`'s generation, word 0 with `birth` and the others with payload 0. `birth` is below
    /// 2^44 and one at which the reclaimer lets this caller hand out a record.
    pub fn hand_out(&self, pass: &mut Pass<S, R>, r: Ref, birth: u64) -> Own
        requires pass { IsPassOf self.now pass.old }
        requires drawn { HasDrawn (view pass.old) r }
        requires birth { birth < 2 ^ 44 }
        requires allowed { R.facts.births (view pass.old).own.guard birth }
        ensures pass { IsSamePass pass.old pass.new }
        ensures record { result ≡ r }
        ensures steps { view pass.new ≡ handed_out (view pass.old) r birth }
        ensures own { HasOwn (view pass.new) r (fresh_row r.generation birth) }
    {
        let index = r.index;
        let own = r.generation.get();
        self.store_field(pass, index, BIRTH, pack_number(own, birth));
        for field in CHAIN..OF_RECORD {
            self.store_field(pass, index, field, pack_number(own, 0));
        }
        Own { record: r }
    }
}

impl<S: Shape, R: Cover> Table<S, R> {
    ghost use Rattle.std.specs.Prelude.{◌≡◌, ℕ, ◌+◌, ◌-◌, ◌<◌, ◌≤◌, ◌^◌, Some};
    ghost use Rattle.row_words.specs.Packing.{packed_number, IsPackedRef};
    ghost use Rattle.record_rule.specs.Kinds.{stored};
    ghost use Rattle.record_rule.specs.HandingOut.{IsOwnOf};
    ghost use Rattle.record_table.specs.Handles.{view, IsPassOf, IsSamePass};

    /// Stores one word of an own record under its generation. `word` is 3 to 7 and `payload` is below
    /// 2^44. In word 3 it is a link without flags.
    pub fn store_own(&self, pass: &mut Pass<S, R>, own: &mut Own, word: u8, payload: u64)
        requires pass { IsPassOf self.now pass.old }
        requires own { IsOwnOf (view pass.old) own.old }
        requires word { (3 ≤ word) × (word < 8) }
        requires payload { payload < 2 ^ 44 }
        requires link { word ≡ 3 → IsPackedRef payload }
        ensures pass { IsSamePass pass.old pass.new }
        ensures record { own.new ≡ own.old }
        ensures own { IsOwnOf (view pass.new) own.old }
        ensures step { view pass.new ≡ stored (view pass.old) own.old.index word (packed_number own.old.generation payload) }
    {
        let record = own.record;
        let value = pack_number(record.generation.get(), payload);
        self.store_field(pass, record.index, word, value);
    }
}
