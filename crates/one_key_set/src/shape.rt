// A set of at most one key per root as a set over the table.
use record_table::Shape;
use set_model::SetName;

/// At most one record behind each root: which records are linked, and which steps callers may make on
/// them. Its machine is that of the set of keys, under the name of Michael's list, which has the same.
pub struct OneKeyShape;

impl Shape for OneKeyShape {
    ghost use Rattle.std.specs.Prelude.{refl};
    ghost use Rattle.set_model.specs.declared.names.SetName.TheVariants.{Michael};
    ghost use Rattle.one_key_facts.specs.OneKey.{one_key};
    ghost use Rattle.one_key_facts.proofs.OneKeyLaws.{one_key_laws};

    const NAME: SetName = SetName::Michael;

    ghost NAME = { Michael };

    ghost facts = { one_key };

    ghost laws = { one_key_laws };

    ghost named = { refl };
}
