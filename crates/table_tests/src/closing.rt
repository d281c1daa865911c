// Taking passes from a list, and closing.
ghost use Rattle.std.specs.Prelude.{◌≡◌, ◌+◌, IfSome, IfNone, length, []};
ghost use Rattle.cover_facts.specs.Keeping.{none};
ghost use Rattle.list_facts.specs.Michael.{michael};
ghost use Rattle.record_table.specs.Closing.{closed_setup, closed_view, IsLastOf, IsClosedBy};
ghost use Rattle.record_table.specs.Handles.{setup_of, view, IsPassOf, IsSamePass};
ghost use Rattle.closed_lists.specs.Listed.{HasLists};
ghost use Rattle.record_table.specs.Made.{AreFreshFrom, IsFresh, IsOutside};

use crate::types::{ListPass, ListTable, MichaelShape};
use closed_lists::show_lists;
use reclaim_none::NoReclaim;
use record_table::Closed;

/// Takes the last pass of fresh ones from the list.
pub fn take_last(table: &ListTable, passes: &mut Vec<ListPass>) -> Option<ListPass>
    requires { AreFreshFrom table.now none.first 0 passes.old.items }
    ensures rest { AreFreshFrom table.now none.first 0 passes.new.items }
    ensures pass { IfSome result (λ p. IsPassOf table.now p) }
    ensures fresh { IfSome result (λ p. IsFresh (setup_of table.now) none.first (length passes.new.items) (view p)) }
    ensures outside { IfSome result IsOutside }
    ensures many { IfSome result (λ _. length passes.old.items ≡ length passes.new.items + 1) }
    ensures none { IfNone result (passes.old.items ≡ []) }
{
    passes.pop()
}

/// Closes a table by the pass that has absorbed every other. Its words are those of one sorted list a
/// root, with the keys that its history leaves.
pub fn close_lists(table: ListTable, last: ListPass) -> Closed
    requires pass { IsPassOf table last }
    requires all { IsLastOf (setup_of table) (view last) }
    ensures key { closed_setup result ≡ setup_of table }
    ensures view { closed_view result ≡ view last }
    ensures fits { IsClosedBy michael none result }
    ensures lists { HasLists result }
{
    let closed = table.close_last(last);
    show_lists::<MichaelShape, NoReclaim>(&closed);
    closed
}
