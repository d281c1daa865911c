//! No reclamation: a record that was retired stays in limbo until the table is closed.
#![tactic(auto)]

mod scheme;

use record_table::{Cover, CoversFrozen};
use set_model::ReclaimerName;

/// The reclaimer that frees nothing. A guard starts with its first load of a link, and needs no
/// announcement.
pub struct NoReclaim;

impl Cover for NoReclaim {
    ghost use Rattle.std.specs.Prelude.{refl};
    ghost use Rattle.set_model.specs.declared.names.ReclaimerName.TheVariants.{Nothing};
    ghost use Rattle.cover_facts.specs.Keeping.{none};
    ghost use Rattle.cover_facts.proofs.KeepingLaws.{none_laws};

    const NAME: ReclaimerName = ReclaimerName::Nothing;

    ghost NAME = { Nothing };

    ghost facts = { none };

    ghost laws = { none_laws };

    ghost named = { refl };
}

impl CoversFrozen for NoReclaim {
    ghost use Rattle.cover_facts.proofs.Frozen.{none_frozen};

    ghost frozen = { none_frozen };
}
