// The parts of retiring: a record comes into the bag, all words are loaded, and the bag is sifted by them.
ghost use Rattle.std.specs.Prelude.{◌≡◌, ◌+◌, ◌*◌, ◌<◌, ◌/◌, ◌%◌, ◌++◌, [], ℕ, List};
ghost use Rattle.arrayvec.specs.ArrayVec.{array_vec_len};
ghost use Rattle.record_memory.specs.declared.steps.Step.{Step};
ghost use Rattle.record_memory.specs.declared.books.Share.{Share};
ghost use Rattle.record_memory.specs.declared.books.Standing.TheVariants.{Free};
ghost use Rattle.row_words.specs.declared.links.Chain.{Chain};
ghost use Rattle.record_rule.specs.Kinds.{idle};
ghost use Rattle.record_rule.specs.Links.{HasTaken};
ghost use Rattle.record_rule.specs.Freeing.{LoadedControl};
ghost use Rattle.record_table.specs.Handles.{setup_of, view, IsPassOf, IsSamePass};
ghost use Rattle.hazard_facts.specs.Pointers.{hazard, scan_word};
ghost use Rattle.reclaim_api.specs.Chained.{IsChainOf};
ghost use Rattle.reclaim_api.specs.Frames.{FreesInto, LeavesRest};
ghost use Rattle.reclaim_api.specs.Locals.{IsLocalOf};
ghost use Rattle.reclaim_api.specs.Holds.{KeepsHeld};
ghost use Rattle.reclaim_api.specs.Putting.{HasKept};
ghost use Rattle.reclaim_hazard.specs.LocalParts.{IsLocal};
ghost use Rattle.reclaim_hazard.specs.Running.{Scans};
ghost use Rattle.reclaim_hazard.specs.Steps.{HasLoadedWords, HasScanned};

use crate::chains::sift_bag;
use crate::{Hazard, Retired};
use arrayvec::ArrayVec;
use reclaim_api::put_first;
use record_memory::announcement;
use record_table::{Pass, Shape, Table, TakenOut};
use row_words::{Chain, Freed};

// Retires a record: its stamp is 0, and it comes in front of the bag.
pub(crate) fn keep<S: Shape>(
    table: &Table<S, Hazard>,
    pass: &mut Pass<S, Hazard>,
    local: &mut Retired,
    taken: TakenOut,
)
    requires pass { IsPassOf table.now pass.old }
    requires local { IsLocalOf IsLocal local.old pass.old }
    requires taken { (h : Share) × HasTaken (view pass.old) taken h }
    ensures pass { IsSamePass pass.old pass.new }
    ensures local { IsLocalOf IsLocal local.new pass.new }
    ensures free { (free : Chain) → IsChainOf Free (view pass.old) free → IsChainOf Free (view pass.new) free }
    ensures kept { HasKept (view pass.old) taken 0 (view pass.new) }
{
    let retired = table.put_row(pass, taken, 0);
    // A reference is in range, so its record has a row.
    let _index = retired.index;
    put_first(table, pass, &mut local.bag, retired);
}

// Loads the word with number `n` in the order of a scan, which goes over the three words of each caller.
fn load_word<S: Shape>(table: &Table<S, Hazard>, pass: &mut Pass<S, Hazard>, n: u32) -> u64
    requires pass { IsPassOf table.now pass.old }
    requires word { n < 3 * (setup_of table.now).callers }
    ensures pass { IsSamePass pass.old pass.new }
    ensures loaded { LoadedControl hazard (view pass.old) (20 + scan_word n) result (view pass.new) }
{
    // There are at most 64 callers, so the word's number is in range.
    let _few = table.callers();
    table.load_control(pass, announcement(n / 3, n % 3))
}

// Loads all words of a scan but the last one, in order.
fn load_most<S: Shape>(
    table: &Table<S, Hazard>,
    pass: &mut Pass<S, Hazard>,
    local: &Retired,
    words: &mut ArrayVec<u64, 192>,
)
    requires pass { IsPassOf table.now pass.old }
    requires local { IsLocalOf IsLocal local.now pass.old }
    requires none { words.old.items ≡ [] }
    ensures pass { IsSamePass pass.old pass.new }
    ensures words { HasLoadedWords (view pass.old) words.new.items (view pass.new) }
    ensures most { array_vec_len words.new + 1 ≡ 3 * local.now.callers }
{
    for n in 0..3 * local.callers - 1 {
        words.push(load_word(table, pass, n));
    }
}

// Loads all words of a scan, in order: with the last load the records that none of them names leave limbo.
fn load_all<S: Shape>(
    table: &Table<S, Hazard>,
    pass: &mut Pass<S, Hazard>,
    local: &Retired,
    words: &mut ArrayVec<u64, 192>,
)
    requires pass { IsPassOf table.now pass.old }
    requires local { IsLocalOf IsLocal local.now pass.old }
    requires none { words.old.items ≡ [] }
    ensures pass { IsSamePass pass.old pass.new }
    ensures words { HasScanned (view pass.old) words.new.items (view pass.new) }
    ensures all { array_vec_len words.new ≡ 3 * local.now.callers }
{
    load_most(table, pass, local, words);
    words.push(load_word(table, pass, 3 * local.callers - 1));
}

// Loads all words of a scan, and frees what none of them names.
pub(crate) fn scan<S: Shape>(
    table: &Table<S, Hazard>,
    pass: &mut Pass<S, Hazard>,
    local: &mut Retired,
    free: &mut Chain,
) -> Freed
    requires pass { IsPassOf table.now pass.old }
    requires local { IsLocalOf IsLocal local.old pass.old }
    requires free { IsChainOf Free (view pass.old) free.old }
    ensures pass { IsSamePass pass.old pass.new }
    ensures local { IsLocalOf IsLocal local.new pass.new }
    ensures free { IsChainOf Free (view pass.new) free.new }
    ensures frees { FreesInto (view pass.old) free.old result (view pass.new) free.new }
    ensures rest { LeavesRest (view pass.old) (view pass.new) }
    ensures keeps { KeepsHeld pass.old pass.new }
    ensures scanned { (made : List Step) × ((view pass.new).own.steps ≡ (view pass.old).own.steps ++ made)
        × Scans (setup_of table.now) (idle (view pass.old).own) (view pass.old).own.mine made result (view pass.new).own }
{
    let mut words = ArrayVec::new();
    load_all(table, pass, local, &mut words);
    sift_bag(table, pass, &mut local.bag, &words, free)
}
