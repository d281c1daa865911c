// The rule, and what it takes from a set and from a reclaimer.
use atomic_table::TableRule;
use record_memory::{Setup, View};
use set_model::{ReclaimerName, SetName};
use std::marker::PhantomData;

/// What a concurrent structure is made of: which records are linked, which keys they stand for, and
/// which steps are lawful. It has no function that runs.
pub trait Shape {
    ghost use Rattle.std.specs.Prelude.{◌≡◌};
    ghost use Rattle.set_model.specs.declared.names.SetName.{SetName};
    ghost use Rattle.record_rule.specs.Facts.{ShapeFacts};
    ghost use Rattle.record_rule.specs.Laws.{ShapeLaws};

    /// The set's name, which its tables are made with.
    const NAME: SetName;

    ghost NAME: { SetName };

    ghost facts: { ShapeFacts };

    ghost laws: { ShapeLaws facts };

    ghost named: { facts.name ≡ NAME };
}

/// What a reclaimer covers: which records no caller frees while a guard may reach them, and which
/// facts keep that. It has no function that runs.
pub trait Cover {
    ghost use Rattle.std.specs.Prelude.{◌≡◌};
    ghost use Rattle.set_model.specs.declared.names.ReclaimerName.{ReclaimerName};
    ghost use Rattle.record_rule.specs.Facts.{CoverFacts};
    ghost use Rattle.record_rule.specs.Laws.{CoverLaws};

    /// The reclaimer's name, which its tables are made with.
    const NAME: ReclaimerName;

    ghost NAME: { ReclaimerName };

    ghost facts: { CoverFacts };

    ghost laws: { CoverLaws facts };

    ghost named: { facts.name ≡ NAME };
}

/// A reclaimer under which a caller may also follow the link of a record that is marked or was taken
/// out: what was taken out behind a guard's start is there until the guard ends. No reclamation and
/// DEBRA are such; hazard pointers and 2GEIBR aren't. It has no function that runs.
///
/// That epochs allow such walks and hazard pointers don't is Brown's observation ("Reclaiming memory for
/// lock-free data structures: there has to be a better way", PODC 2015); that a structure asks for it by
/// a bound is this project's.
pub trait CoversFrozen: Cover {
    ghost use Rattle.record_rule.specs.Frozen.{FrozenLaws};

    ghost frozen: { FrozenLaws Self.facts };
}

/// The rule of the one table.
pub struct World<S, R> {
    marker: PhantomData<(S, R)>,
}

impl<S: Shape, R: Cover> TableRule<(), View, Setup> for World<S, R> {
    ghost use Rattle.record_rule.specs.World.{Rule};
    ghost use Rattle.record_rule.specs.Opening.{first_view};

    ghost holds = { λ setup. Rule S.facts R.facts setup };

    ghost first = { first_view R.facts.first };
}
