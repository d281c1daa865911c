//! What the words of a closed table of sorted lists say: one path a root, and the set of keys that its
//! history leaves.
//!
//! A closed table holds whatever its set and its reclaimer keep. That its roots then have paths, in
//! which each linked record stands once, is a theorem on sorted lists alone.
#![tactic(auto)]

ghost use Rattle.std.specs.Prelude.{◌≡◌, []};
ghost use Rattle.record_table.specs.Closing.{IsClosedBy};
ghost use Rattle.closed_lists.specs.Listed.{AreListsOf, HasLists};

use list_facts::SortedLists;
use record_table::{Closed, Cover};

/// Shows what a closed table of sorted lists is, to contracts alone: it reads nothing.
///
/// Its history has all its updates. Each root has exactly one path, no record stands on two, a record
/// is linked exactly where it isn't a root and stands on one, and keys rise along it and equal the
/// root's number modulo the number of roots. The keys on the paths whose links have no mark are those
/// that the history leaves.
pub fn show_lists<S: SortedLists, R: Cover>(closed: &Closed)
    ensures whole { (f : IsClosedBy S.facts R.facts closed.now) → f.waiting ≡ [] }
    ensures lists { (f : IsClosedBy S.facts R.facts closed.now) → AreListsOf closed.now f.records f.taken_out }
    ensures has { IsClosedBy S.facts R.facts closed.now → HasLists closed.now }
{}
