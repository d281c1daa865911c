// A first look at a list, and what may be placed by it.
ghost use Rattle.std.specs.Prelude.{◌≡◌, ℕ, length, true, false, None};
ghost use Rattle.set_model.specs.declared.calls.Call.TheVariants.{Search};
ghost use Rattle.list_facts.specs.Michael.{michael};
ghost use Rattle.record_rule.specs.Placing.{MayPlace};
ghost use Rattle.record_table.specs.Handles.{setup_of, view, since, is_inside, IsPassOf, IsSamePass};
ghost use Rattle.record_table.specs.Nodes.{HasStarted};

use crate::types::{ListPass, ListTable};
use record_table::Node;
use row_words::Link;

const LINK: u8 = 3;

/// Loads the link of the only root, with which the guard starts. Where the list is empty, a search for
/// any key may be placed behind the updates that the load noted.
pub fn look_first(table: &ListTable, pass: &mut ListPass) -> Link
    requires pass { IsPassOf table.now pass.old }
    requires roots { (setup_of table.now).roots ≡ 1 }
    requires inside { is_inside pass.old ≡ true }
    requires begun { since pass.old ≡ view pass.old }
    ensures pass { IsSamePass pass.old pass.new }
    ensures started { HasStarted pass.new }
    ensures place { result.flags ≡ 0 → result.target ≡ None → (k : ℕ) → MayPlace michael (view pass.new) (length (view pass.new).seen_updates) (Search k) false }
{
    table.load_link(pass, Node::Root(0), LINK)
}
