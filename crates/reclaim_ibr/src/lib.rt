//! 2GEIBR, interval-based reclamation: a caller announces an interval of epochs, and a record leaves limbo once its
//! life meets no announced interval.
//!
//! A record is born at the epoch of the moment before it is handed out, and is stamped with the epoch when it is
//! retired; the epoch is tried at each sixteenth birth. A caller that enters announces the interval from the present
//! epoch to the present epoch. A try to hold loads the link and then the epoch: the target is held where the epoch is
//! still the upper end, and else the upper end is raised to it and the caller tries again. At each sixteenth retirement
//! a caller loads both ends of every caller, and frees what it retired but for the records whose life meets one of
//! these intervals. After Wen, Izraelevitz, Cai, Beadle and Scott, "Interval-based memory reclamation" (PPoPP 2018).
#![tactic(auto)]

mod announcing;
mod births;
mod chains;
mod epochs;
mod interval;
mod meeting;
mod reaching;
mod retiring;
mod scheme;

pub use interval::Interval;
use record_table::Cover;
use set_model::ReclaimerName;

/// The reclaimer by intervals of epochs, with two ends: the tagless 2GEIBR.
pub struct Ibr;

impl Cover for Ibr {
    ghost use Rattle.std.specs.Prelude.{refl};
    ghost use Rattle.set_model.specs.declared.names.ReclaimerName.TheVariants.{Ibr as IbrName};
    ghost use Rattle.ibr_facts.specs.Keeping.{ibr};
    ghost use Rattle.ibr_facts.proofs.KeepingLaws.{ibr_laws};

    const NAME: ReclaimerName = ReclaimerName::Ibr;

    ghost NAME = { IbrName };

    ghost facts = { ibr };

    ghost laws = { ibr_laws };

    ghost named = { refl };
}
