// The set that these tests use.
use list_facts::SortedLists;
use reclaim_none::NoReclaim;
use record_table::{Pass, Shape, Table};
use set_model::SetName;

/// Michael's list.
pub struct MichaelShape;

impl Shape for MichaelShape {
    ghost use Rattle.std.specs.Prelude.{refl};
    ghost use Rattle.set_model.specs.declared.names.SetName.TheVariants.{Michael};
    ghost use Rattle.list_facts.specs.Michael.{michael};
    ghost use Rattle.list_facts.proofs.MichaelLaws.{michael_laws};

    const NAME: SetName = SetName::Michael;

    ghost NAME = { Michael };

    ghost facts = { michael };

    ghost laws = { michael_laws };

    ghost named = { refl };
}

impl SortedLists for MichaelShape {
    ghost use Rattle.list_facts.proofs.ListEnds.{michael_lists};

    ghost lists = { michael_lists };
}

/// A table for it, without reclamation.
pub type ListTable = Table<MichaelShape, NoReclaim>;

/// A pass of such a table.
pub type ListPass = Pass<MichaelShape, NoReclaim>;
