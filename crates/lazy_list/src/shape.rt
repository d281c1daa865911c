// The lazy list as a set over the table.
use list_facts::SortedLists;
use record_table::Shape;
use set_model::SetName;

/// The lazy list: which records are linked, and which steps callers may make on them.
pub struct LazyShape;

impl Shape for LazyShape {
    ghost use Rattle.std.specs.Prelude.{refl};
    ghost use Rattle.set_model.specs.declared.names.SetName.TheVariants.{Lazy};
    ghost use Rattle.lazy_facts.specs.Lazy.{lazy};
    ghost use Rattle.lazy_facts.proofs.LazyLaws.{lazy_laws};

    const NAME: SetName = SetName::Lazy;

    ghost NAME = { Lazy };

    ghost facts = { lazy };

    ghost laws = { lazy_laws };

    ghost named = { refl };
}

impl SortedLists for LazyShape {
    ghost use Rattle.lazy_facts.proofs.LazyLists.{lazy_lists};

    ghost lists = { lazy_lists };
}
