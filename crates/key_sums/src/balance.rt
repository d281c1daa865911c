// That the callers' tallies and the closed table agree.
ghost use Rattle.std.specs.Prelude.{List};
ghost use Rattle.record_table.specs.Closing.{IsClosedBy};
ghost use Rattle.key_sums.specs.declared.tallies.Tally.{Tally};
ghost use Rattle.key_sums.specs.Balances.{AreTalliesOf, AreBalanced};

use list_facts::SortedLists;
use record_table::{Closed, Cover};

/// Shows, to contracts alone, that tallies of all callers of a closed table of sorted lists, whose answered calls
/// are those of the table, add up to it: the number of keys that its history leaves is what was added less what
/// was taken away, and so is their sum. These are the two numbers that `size_and_sum` counts. It reads nothing.
pub fn show_balance<S: SortedLists, R: Cover>(closed: &Closed)
    ensures balance { (f : IsClosedBy S.facts R.facts closed.now) → (tallies : List Tally) → AreTalliesOf closed.now tallies → AreBalanced closed.now tallies }
{}
