//! Which set may be played under which reclaimer.
//!
//! A search of the lazy list follows links of records that were taken out. Such a link no longer
//! changes, so loading it again does not tell that its target still stands, as hazard pointers and
//! 2GEIBR need. The plain set has no records, so it goes with no reclamation alone.
#![tactic(auto)]

ghost use Rattle.std.specs.Prelude.{◌≡◌, IfOk, IfErr, IsOk, ◌↔◌};
ghost use Rattle.lawful_pairs.specs.Table.{IsLawfulPair};

use set_model::{ReclaimerName, SetName};

/// A set and a reclaimer that may be played together, by the table of `specs/Table.antt`.
#[derive(Clone, Copy, Debug, PartialEq, Eq)]
pub struct Pair {
    /// The set.
    pub set: SetName,
    /// The reclaimer under which it is played.
    pub reclaimer: ReclaimerName,
    pub ghost lawful: { IsLawfulPair set reclaimer },
}

/// A set and a reclaimer to which the table says no.
#[derive(Clone, Copy, Debug, PartialEq, Eq)]
pub struct Unlawful {
    /// The set.
    pub set: SetName,
    /// The reclaimer that was named with it.
    pub reclaimer: ReclaimerName,
}

/// The pair of this set and this reclaimer. It is refused exactly where the table says no. Takes no
/// memory.
pub fn lawful(set: SetName, reclaimer: ReclaimerName) -> Result<Pair, Unlawful>
    ensures ok { IfOk result (λ pair. (pair.set ≡ set) × (pair.reclaimer ≡ reclaimer)) }
    ensures err { IfErr result (λ refused. (refused.set ≡ set) × (refused.reclaimer ≡ reclaimer)) }
    ensures exactly { IsOk result ↔ IsLawfulPair set reclaimer }
{
    match (set, reclaimer) {
        (SetName::Plain, ReclaimerName::Nothing)
        | (SetName::Michael, _)
        | (SetName::Lazy, ReclaimerName::Nothing | ReclaimerName::Debra) => {
            Ok(Pair { set, reclaimer })
        }
        _ => Err(Unlawful { set, reclaimer }),
    }
}

#[cfg(test)]
mod tests;
