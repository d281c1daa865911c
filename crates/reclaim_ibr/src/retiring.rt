// Retiring: the epoch is the stamp, the record comes into the bag, and each sixteenth one sifts it by all intervals.
ghost use Rattle.std.specs.Prelude.{◌≡◌, ◌+◌, ◌*◌, ◌<◌, ◌/◌, ◌%◌, ◌^◌, ◌++◌, [], ℕ, List};
ghost use Rattle.arrayvec.specs.ArrayVec.{array_vec_len};
ghost use Rattle.record_memory.specs.declared.steps.Step.{Step};
ghost use Rattle.record_memory.specs.declared.books.Share.{Share};
ghost use Rattle.record_memory.specs.declared.books.Standing.TheVariants.{Free};
ghost use Rattle.row_words.specs.declared.links.Chain.{Chain};
ghost use Rattle.record_rule.specs.Kinds.{idle};
ghost use Rattle.record_rule.specs.Links.{HasTaken};
ghost use Rattle.record_rule.specs.Freeing.{LoadedControl};
ghost use Rattle.record_table.specs.Handles.{setup_of, view, IsPassOf, IsSamePass};
ghost use Rattle.ibr_facts.specs.Keeping.{ibr};
ghost use Rattle.reclaim_api.specs.Chained.{IsChainOf};
ghost use Rattle.reclaim_api.specs.Frames.{FreesInto, LeavesRest, LeavesRestBut};
ghost use Rattle.reclaim_api.specs.Guarding.{IsInside};
ghost use Rattle.reclaim_api.specs.Locals.{IsLocalOf};
ghost use Rattle.reclaim_api.specs.Holds.{KeepsHeld};
ghost use Rattle.reclaim_api.specs.Putting.{HasKept};
ghost use Rattle.reclaim_api.specs.Scanning.{LoadsSome, LoadsAll};
ghost use Rattle.reclaim_ibr.specs.LocalParts.{IsLocal};
ghost use Rattle.reclaim_ibr.specs.Meeting.{is_unmet};
ghost use Rattle.reclaim_ibr.specs.Retiring.{scan_word, Scans, PutsAway};

use crate::chains::sift_bag;
use crate::epochs::read_epoch;
use crate::{Ibr, Interval};
use arrayvec::ArrayVec;
use reclaim_api::{NONE_FREED, put_first};
use record_memory::announcement;
use record_table::{Pass, Shape, Table, TakenOut};
use row_words::{Chain, Freed};

// One retirement in so many scans the intervals.
const EACH: u8 = 16;

// Retires a record with the last reading as its stamp: it comes in front of the bag, and is counted.
fn keep<S: Shape>(
    table: &Table<S, Ibr>,
    pass: &mut Pass<S, Ibr>,
    local: &mut Interval,
    taken: TakenOut,
    epoch: u64,
)
    requires pass { IsPassOf table.now pass.old }
    requires local { IsLocalOf IsLocal local.old pass.old }
    requires epoch { epoch < 2 ^ 44 }
    requires taken { (h : Share) × HasTaken (view pass.old) taken h × ibr.stamps (view pass.old).own.guard h.taken_number epoch }
    ensures pass { IsSamePass pass.old pass.new }
    ensures local { IsLocalOf IsLocal local.new pass.new }
    ensures free { (free : Chain) → IsChainOf Free (view pass.old) free → IsChainOf Free (view pass.new) free }
    ensures kept { HasKept (view pass.old) taken epoch (view pass.new) }
{
    let retired = table.put_row(pass, taken, epoch);
    // A reference is in range, so its record has a row.
    let _index = retired.index;
    put_first(table, pass, &mut local.bag, retired);
    local.retired = (local.retired + 1) % EACH;
}

// Loads the word with number `n` in the order of a scan, which goes over the two ends of each caller.
fn load_end<S: Shape>(table: &Table<S, Ibr>, pass: &mut Pass<S, Ibr>, n: u32) -> u64
    requires pass { IsPassOf table.now pass.old }
    requires word { n < 2 * (setup_of table.now).callers }
    ensures pass { IsSamePass pass.old pass.new }
    ensures loaded { LoadedControl ibr (view pass.old) (20 + scan_word n) result (view pass.new) }
{
    // There are at most 64 callers, so the word's number is in range.
    let _few = table.callers();
    table.load_control(pass, announcement(n / 2, n % 2))
}

// Loads all ends of a scan but the last one, in order.
fn load_most<S: Shape>(
    table: &Table<S, Ibr>,
    pass: &mut Pass<S, Ibr>,
    local: &Interval,
    ends: &mut ArrayVec<u64, 128>,
)
    requires pass { IsPassOf table.now pass.old }
    requires local { IsLocalOf IsLocal local.now pass.old }
    requires none { ends.old.items ≡ [] }
    ensures pass { IsSamePass pass.old pass.new }
    ensures ends { LoadsSome scan_word (view pass.old) ends.new.items (view pass.new) }
    ensures most { array_vec_len ends.new + 1 ≡ 2 * local.now.callers }
{
    for n in 0..2 * local.callers - 1 {
        ends.push(load_end(table, pass, n));
    }
}

// Loads all ends of a scan, in order: with the last load the records that no interval meets leave limbo.
fn load_all<S: Shape>(
    table: &Table<S, Ibr>,
    pass: &mut Pass<S, Ibr>,
    local: &Interval,
    ends: &mut ArrayVec<u64, 128>,
)
    requires pass { IsPassOf table.now pass.old }
    requires local { IsLocalOf IsLocal local.now pass.old }
    requires none { ends.old.items ≡ [] }
    ensures pass { IsSamePass pass.old pass.new }
    ensures ends { LoadsAll scan_word is_unmet (view pass.old) ends.new.items (view pass.new) }
    ensures all { array_vec_len ends.new ≡ 2 * local.now.callers }
{
    load_most(table, pass, local, ends);
    ends.push(load_end(table, pass, 2 * local.callers - 1));
}

// Loads all ends of a scan, and frees what no interval meets.
fn scan<S: Shape>(
    table: &Table<S, Ibr>,
    pass: &mut Pass<S, Ibr>,
    local: &mut Interval,
    free: &mut Chain,
) -> Freed
    requires pass { IsPassOf table.now pass.old }
    requires local { IsLocalOf IsLocal local.old pass.old }
    requires free { IsChainOf Free (view pass.old) free.old }
    ensures pass { IsSamePass pass.old pass.new }
    ensures local { IsLocalOf IsLocal local.new pass.new }
    ensures free { IsChainOf Free (view pass.new) free.new }
    ensures frees { FreesInto (view pass.old) free.old result (view pass.new) free.new }
    ensures rest { LeavesRest (view pass.old) (view pass.new) }
    ensures keeps { KeepsHeld pass.old pass.new }
    ensures guard { (view pass.new).own.guard ≡ (view pass.old).own.guard }
    ensures scanned { (made : List Step) × ((view pass.new).own.steps ≡ (view pass.old).own.steps ++ made)
        × Scans (setup_of table.now) (idle (view pass.old).own) (view pass.old).own.mine made result (view pass.new).own }
{
    let mut ends = ArrayVec::new();
    load_all(table, pass, local, &mut ends);
    sift_bag(table, pass, &mut local.bag, ends.as_slice(), free)
}

// Retires a record that the caller took out: it is stamped with the epoch and comes into the bag, and where it is a
// sixteenth one, the records leave limbo whose life meets no interval.
pub(crate) fn put_away<S: Shape>(
    table: &Table<S, Ibr>,
    pass: &mut Pass<S, Ibr>,
    local: &mut Interval,
    taken: TakenOut,
    free: &mut Chain,
) -> Freed
    requires pass { IsPassOf table.now pass.old }
    requires inside { IsInside pass.old }
    requires local { IsLocalOf IsLocal local.old pass.old }
    requires free { IsChainOf Free (view pass.old) free.old }
    requires taken { (h : Share) × HasTaken (view pass.old) taken h }
    ensures pass { IsSamePass pass.old pass.new }
    ensures inside { IsInside pass.new }
    ensures local { IsLocalOf IsLocal local.new pass.new }
    ensures free { IsChainOf Free (view pass.new) free.new }
    ensures frees { FreesInto (view pass.old) free.old result (view pass.new) free.new }
    ensures rest { LeavesRestBut taken.index (view pass.old) (view pass.new) }
    ensures keeps { KeepsHeld pass.old pass.new }
    ensures does { PutsAway (setup_of table.now) (view pass.old).own taken result (view pass.new).own }
{
    let epoch = read_epoch(table, pass, local);
    keep(table, pass, local, taken, epoch);
    if local.retired != 0 {
        return NONE_FREED;
    }
    scan(table, pass, local, free)
}
