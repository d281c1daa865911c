// Retiring a record that was taken out.
ghost use Rattle.std.specs.Prelude.{◌≡◌, ◌<◌, ◌^◌};
ghost use Rattle.record_memory.specs.declared.books.Share.{Share};
ghost use Rattle.record_rule.specs.Links.{HasTaken, retired};
ghost use Rattle.record_table.specs.Handles.{view, IsPassOf, IsSamePass};

use crate::passes::Pass;
use crate::table::Table;
use record_memory::STAMP;
use record_rule::{Cover, Shape};
use row_words::{Ref, pack_number};
use std::marker::{Brand, Model};

/// A record that this caller took out and hasn't retired. It must be spent. Contracts see it as its
/// reference.
pub struct TakenOut {
    pub(crate) record: Ref,
}

impl Model for TakenOut {
    ghost use Rattle.row_words.specs.Refs.{RefParts};

    ghost Value = { RefParts };

    ghost view = { λ t. t.record };
}

impl TakenOut {
    /// The record.
    pub fn reference(&self) -> Ref
        ensures { result ≡ self.now }
    {
        self.record
    }
}

impl<S: Shape, R: Cover> Table<S, R> {
    /// Retires a record that this caller took out: stores its stamp, and the record is in this caller's
    /// limbo. `stamp` is below 2^44 and one that the reclaimer allows.
    pub fn put_row(&self, pass: &mut Pass<S, R>, taken: TakenOut, stamp: u64) -> Ref
        requires pass { IsPassOf self.now pass.old }
        requires stamp { stamp < 2 ^ 44 }
        requires taken { (h : Share) × HasTaken (view pass.old) taken h × R.facts.stamps (view pass.old).own.guard h.taken_number stamp }
        ensures pass { IsSamePass pass.old pass.new }
        ensures record { result ≡ taken }
        ensures step { (h : Share) × HasTaken (view pass.old) taken h × (view pass.new ≡ retired (view pass.old) taken h stamp) }
    {
        let TakenOut { record } = taken;
        let word = self.address_of(record.index, STAMP);
        let value = pack_number(record.generation.get(), stamp);
        self.store::<Brand, _>(pass, word, value, &record);
        record
    }
}
