//! Hazard pointers: a caller names the record that it holds at a place in a word of its own, and a scan of all
//! callers' words frees what none of them names.
//!
//! A try to hold loads the link, stores the target's name and loads the link again: the target is held where the
//! link still leads to it and has no mark, since a scan that comes later finds the name. A caller keeps the records
//! that it retired in one bag, and scans once there are six times as many as there are callers, so that at least half
//! of them go.
//! After Michael, "Hazard pointers: safe memory reclamation for lock-free objects" (IEEE TPDS 2004).
#![tactic(auto)]

mod chains;
mod naming;
mod reaching;
mod retired;
mod retiring;
mod scheme;

use record_table::Cover;
pub use retired::Retired;
use set_model::ReclaimerName;

/// The reclaimer by hazard pointers: one word for each of the three places of a caller.
pub struct Hazard;

impl Cover for Hazard {
    ghost use Rattle.std.specs.Prelude.{refl};
    ghost use Rattle.set_model.specs.declared.names.ReclaimerName.TheVariants.{Hazard as HazardName};
    ghost use Rattle.hazard_facts.specs.Pointers.{hazard};
    ghost use Rattle.hazard_facts.proofs.PointersLaws.{hazard_laws};

    const NAME: ReclaimerName = ReclaimerName::Hazard;

    ghost NAME = { HazardName };

    ghost facts = { hazard };

    ghost laws = { hazard_laws };

    ghost named = { refl };
}
