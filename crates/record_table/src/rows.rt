// A caller's rows, for chains through them.
ghost use Rattle.std.specs.Prelude.{◌≡◌, ℕ, refl};
ghost use Rattle.std.proofs.Common.{◌∙◌};
ghost use Rattle.record_rule.proofs.ChainRows.{still_start, still_then};
ghost use Rattle.record_rule.specs.ChainRows.{row_in, OwnsAway, IsStill};
ghost use Rattle.record_rule.specs.Kinds.{loaded, stored, IsKnown};
ghost use Rattle.record_rule.specs.Asides.{chain_word};
ghost use Rattle.record_table.specs.Handles.{view, IsPassOf, IsSamePass, same_start, same_then};

use crate::passes::Pass;
use crate::table::Table;
use record_memory::{BIRTH, CHAIN, STAMP};
use record_rule::{Cover, Shape};
use row_words::{ChainWords, Link, Ref, link_of, number_of, pack_link};

/// The rows of one table as one caller sees them. It owns the chain words of the records that are
/// in limbo, free or spent of it. Each call is one atomic step.
pub struct Rows<'a, S: Shape, R: Cover> {
    /// The table.
    pub table: &'a Table<S, R>,
    /// The caller's pass.
    pub pass: &'a mut Pass<S, R>,
}

impl<'a, S: Shape, R: Cover> ChainWords for Rows<'a, S, R> {
    ghost owns = { λ w r. IsPassOf w.table.now w.pass.now × OwnsAway (view w.pass.now) r };

    ghost row_of = { λ w r. row_in (view w.pass.now) r };

    ghost same = { λ v w. (w.table ≡ v.table) × (w.pass.ghost_name ≡ v.pass.ghost_name) × IsSamePass v.pass.now w.pass.now × IsStill (view v.pass.now) (view w.pass.now) };

    ghost loads = { λ w r x. (n : ℕ) × IsKnown (view w.pass.now) r.index 1 n × (view x.pass.now ≡ loaded (view w.pass.now) r.index 1 n) };

    ghost stores = { λ w r next x. view x.pass.now ≡ stored (view w.pass.now) r.index 1 (chain_word r.generation next) };

    ghost looks = { λ w r f x. (n : ℕ) × IsKnown (view w.pass.now) r.index f n × (view x.pass.now ≡ loaded (view w.pass.now) r.index f n) };

    fn load_chain(&mut self, r: Ref) -> Option<Ref> {
        let found = self.table.load_field(self.pass, r.index, CHAIN);
        link_of(found).target
    }

    fn store_chain(&mut self, r: Ref, next: Option<Ref>) {
        let value = pack_link(r.generation.get(), Link::to(next));
        self.table.store_field(self.pass, r.index, CHAIN, value);
    }

    fn load_birth(&mut self, r: Ref) -> u64 {
        let found = self.table.load_field(self.pass, r.index, BIRTH);
        number_of(found)
    }

    fn load_stamp(&mut self, r: Ref) -> u64 {
        let found = self.table.load_field(self.pass, r.index, STAMP);
        number_of(found)
    }

    ghost same_start = { λ w. (refl, refl, same_start w.pass.now, still_start (view w.pass.now)) };

    ghost same_then = { λ u v w a b. (b.0 ∙ a.0, b.1 ∙ a.1, same_then u.pass.now v.pass.now w.pass.now a.2 b.2, still_then (view u.pass.now) (view v.pass.now) (view w.pass.now) a.3 b.3) };
}
