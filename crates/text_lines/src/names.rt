// The names of sets and reclaimers.
ghost use Rattle.std.specs.Prelude.{◌≡◌};
ghost use Rattle.text_lines.specs.Names.{reclaimer_word, set_word};

use set_model::{ReclaimerName, SetName};

/// The name of a set, as words and texts spell it.
pub fn set_word(set: SetName) -> &'static [u8]
    ensures { result.now ≡ set_word set }
{
    match set {
        SetName::Plain => b"plain",
        SetName::Michael => b"michael",
        SetName::Lazy => b"lazy",
    }
}

/// The name of a reclaimer, as words and texts spell it.
pub fn reclaimer_word(reclaimer: ReclaimerName) -> &'static [u8]
    ensures { result.now ≡ reclaimer_word reclaimer }
{
    match reclaimer {
        ReclaimerName::Nothing => b"none",
        ReclaimerName::Debra => b"debra",
        ReclaimerName::Hazard => b"hazard",
        ReclaimerName::Ibr => b"2geibr",
    }
}
