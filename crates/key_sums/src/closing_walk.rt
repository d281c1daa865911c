// How many keys a closed table of sorted lists has, and their sum.
ghost use Rattle.std.specs.Prelude.{◌≡◌, ◌<◌, ◌+◌, ◌^◌};
ghost use Rattle.set_model.specs.Keys.{size_of, sum_of};
ghost use Rattle.set_model.specs.Histories.{keys_of};
ghost use Rattle.record_table.specs.Closing.{closed_setup, history_of};
ghost use Rattle.list_facts.specs.Paths.{row_word, row_link, row_key};
ghost use Rattle.closed_lists.specs.Listed.{HasLists};
ghost use Rattle.key_sums.specs.Sums.{closed_rows, AreSums};
ghost use Rattle.key_sums.specs.Walking.{HasCounted};

use record_table::Closed;
use row_words::{Link, key_of, link_of};

// Word `field` of the row with this number, from 0.
fn word_in(closed: &Closed, row: u32, field: u8) -> u64
    requires row { row < (closed_setup closed.now).records }
    requires field { field < 8 }
    ensures word { result ≡ row_word (closed_rows closed.now) row field }
{
    let controls = 20 + 5 * closed.callers() as usize;
    closed.words()[controls + 8 * row as usize + field as usize]
}

// Where the record in this row leads.
fn link_in(closed: &Closed, row: u32) -> Link
    requires row { row < (closed_setup closed.now).records }
    requires lists { HasLists closed.now }
    ensures link { result ≡ row_link (closed_rows closed.now) row }
{
    link_of(word_in(closed, row, 3))
}

// The key of the record in this row.
fn key_in(closed: &Closed, row: u32) -> u64
    requires row { row < (closed_setup closed.now).records }
    ensures key { result ≡ row_key (closed_rows closed.now) row }
    ensures fits { result < 2 ^ 40 }
{
    key_of(word_in(closed, row, 4))
}

// Walks the path of one root, and adds to the size and the sum of the roots before it.
fn add_path(closed: &Closed, root: u32, before: (u64, u64)) -> (u64, u64)
    requires lists { HasLists closed.now }
    requires root { root < (closed_setup closed.now).roots }
    requires before { HasCounted closed.now root 0 before.0 before.1 }
    ensures counted { HasCounted closed.now (root + 1) 0 result.0 result.1 }
{
    let (mut size, mut sum) = before;
    let mut link = link_in(closed, root);
    while let Some(record) = link.target {
        let row = record.index - 1;
        link = link_in(closed, row);
        if !link.is_marked() {
            size += 1;
            sum += key_in(closed, row);
        }
    }
    (size, sum)
}

/// The number and the sum of the keys that a closed table of sorted lists has, as of one list, of a hash
/// table's buckets or of a lazy list: those of the records that stand on some root's path and whose links
/// have no mark. The roots themselves have no keys.
///
/// It walks each root's path once, from the root to its end, and looks at no other row. It takes no memory
/// and has no refusal. Its condition is what `closed_lists::show_lists` tells of a table that was closed by
/// the facts of such a set.
pub fn size_and_sum(closed: &Closed) -> (u64, u64)
    requires lists { HasLists closed.now }
    ensures present { AreSums closed.now result.0 result.1 }
    ensures size { result.0 ≡ size_of (keys_of (history_of closed.now)) }
    ensures sum { result.1 ≡ sum_of (keys_of (history_of closed.now)) }
{
    let mut counted = (0, 0);
    for root in 0..closed.roots() {
        counted = add_path(closed, root, counted);
    }
    counted
}
