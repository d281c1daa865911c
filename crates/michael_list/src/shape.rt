// Michael's list as a set over the table.
use list_facts::SortedLists;
use record_table::Shape;
use set_model::SetName;

/// Michael's list: which records are linked, and which steps callers may make on them.
pub struct MichaelShape;

impl Shape for MichaelShape {
    ghost use Rattle.std.specs.Prelude.{refl};
    ghost use Rattle.set_model.specs.declared.names.SetName.TheVariants.{Michael};
    ghost use Rattle.list_facts.specs.Michael.{michael};
    ghost use Rattle.list_facts.proofs.MichaelLaws.{michael_laws};

    const NAME: SetName = SetName::Michael;

    ghost NAME = { Michael };

    ghost facts = { michael };

    ghost laws = { michael_laws };

    ghost named = { refl };
}

impl SortedLists for MichaelShape {
    ghost use Rattle.list_facts.proofs.ListEnds.{michael_lists};

    ghost lists = { michael_lists };
}
