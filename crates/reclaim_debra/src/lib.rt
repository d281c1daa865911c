//! DEBRA: a caller reads the epoch when it enters, and frees a record once it has read three later epochs.
//!
//! While a caller is active the epoch advances by one at most, since an advance needs a scan that found
//! every caller quiet or active at the present epoch. A caller looks at one announcement each time it
//! enters, and keeps the records that it retired in three bags, one for each of its last three readings.
//! After Brown, "Reclaiming memory for lock-free data structures: there has to be a better way" (PODC 2015).
#![tactic(auto)]

mod bags;
mod chains;
mod entering;
mod scheme;

pub use bags::Bags;
use record_table::{Cover, CoversFrozen};
use set_model::ReclaimerName;

/// The reclaimer by epochs that a caller announces when it enters and leaves.
pub struct Debra;

impl Cover for Debra {
    ghost use Rattle.std.specs.Prelude.{refl};
    ghost use Rattle.set_model.specs.declared.names.ReclaimerName.TheVariants.{Debra as DebraName};
    ghost use Rattle.debra_facts.specs.Debra.{debra};
    ghost use Rattle.debra_facts.proofs.DebraLaws.{debra_laws};

    const NAME: ReclaimerName = ReclaimerName::Debra;

    ghost NAME = { DebraName };

    ghost facts = { debra };

    ghost laws = { debra_laws };

    ghost named = { refl };
}

impl CoversFrozen for Debra {
    ghost use Rattle.debra_facts.proofs.Frozen.{debra_frozen};

    ghost frozen = { debra_frozen };
}
