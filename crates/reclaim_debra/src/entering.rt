// The parts of entering: the epoch is read and the bags shift, one announcement is looked at, and the caller announces itself.
ghost use Rattle.std.specs.Prelude.{◌≡◌, ◌↔◌, ◌<◌, ◌≤◌, ℕ, IsTrue, false};
ghost use Rattle.record_memory.specs.declared.books.Standing.TheVariants.{Free};
ghost use Rattle.record_rule.specs.ControlSteps.{StoredWord};
ghost use Rattle.record_table.specs.Handles.{setup_of, view, IsPassOf, IsSamePass};
ghost use Rattle.reclaim_api.specs.Chained.{IsChainOf};
ghost use Rattle.reclaim_api.specs.Frames.{FreesInto, LeavesRest, LeavesRecords};
ghost use Rattle.debra_facts.specs.Debra.{debra};
ghost use Rattle.debra_facts.specs.Rounds.{DebraMayStore, is_passed};
ghost use Rattle.reclaim_debra.specs.LocalParts.{KeepsBags};
ghost use Rattle.reclaim_debra.specs.Entering.{HasRead, HasLooked, HasTried, HasScanned, HasAnnounced};

use crate::chains::free_bag;
use crate::{Bags, Debra};
use reclaim_api::NONE_FREED;
use record_memory::{EPOCH, announcement};
use record_table::{Pass, Shape, Table};
use row_words::{Chain, Freed};
use std::mem;

// The last epoch, the greatest number that a word of 44 bits holds.
const LAST_EPOCH: u64 = 17_592_186_044_415;

// Loads the epoch. Where it isn't the last reading, the records of the third bag are freed, and the bags shift.
pub(crate) fn read_epoch<S: Shape>(
    table: &Table<S, Debra>,
    pass: &mut Pass<S, Debra>,
    bags: &mut Bags,
    free: &mut Chain,
) -> Freed
    requires pass { IsPassOf table.now pass.old }
    requires bags { KeepsBags bags.old (view pass.old) }
    requires free { IsChainOf Free (view pass.old) free.old }
    ensures pass { IsSamePass pass.old pass.new }
    ensures bags { KeepsBags bags.new (view pass.new) }
    ensures free { IsChainOf Free (view pass.new) free.new }
    ensures frees { FreesInto (view pass.old) free.old result (view pass.new) free.new }
    ensures rest { LeavesRest (view pass.old) (view pass.new) }
    ensures read { HasRead (view pass.old) bags.new.reading result (view pass.new) }
{
    let epoch = table.load_control(pass, EPOCH);
    if epoch == bags.reading {
        return NONE_FREED;
    }
    let freed = free_bag(table, pass, &mut bags.third, free);
    mem::swap(&mut bags.third, &mut bags.second);
    mem::swap(&mut bags.second, &mut bags.current);
    bags.reading = epoch;
    bags.place = 0;
    freed
}

// Whether an announcement lets the epoch `reading` advance: its caller is quiet, or active at this epoch.
fn lets_advance(announced: u64, reading: u64) -> bool
    requires { reading ≤ LAST_EPOCH }
    ensures { result ≡ is_passed reading announced }
{
    announced % 2 == 0 || announced == 2 * reading + 1
}

// Looks at the announcement of the caller at the scan's place, if there is one, and passes it where it is quiet or active at
// the last reading. Whether it thereby passed the last one.
fn look<S: Shape>(table: &Table<S, Debra>, pass: &mut Pass<S, Debra>, bags: &mut Bags) -> bool
    requires pass { IsPassOf table.now pass.old }
    requires bags { KeepsBags bags.old (view pass.old) }
    ensures pass { IsSamePass pass.old pass.new }
    ensures bags { KeepsBags bags.new (view pass.new) }
    ensures rest { LeavesRecords (view pass.old) (view pass.new) }
    ensures reading { bags.new.reading ≡ bags.old.reading }
    ensures looked { HasLooked (setup_of table.now) (view pass.old) bags.old.reading bags.old.place bags.new.place (view pass.new) }
    ensures last { IsTrue result ↔ ((bags.old.place < (setup_of table.now).callers) × (bags.new.place ≡ (setup_of table.now).callers)) }
{
    let callers = table.callers();
    if bags.place >= callers {
        return false;
    }
    let found = table.load_control(pass, announcement(bags.place, 0));
    if !lets_advance(found, bags.reading) {
        return false;
    }
    bags.place += 1;
    bags.place == callers
}

// Tries the epoch once, from the last reading, which the scan has passed with all callers. Not at the last epoch.
fn advance<S: Shape>(table: &Table<S, Debra>, pass: &mut Pass<S, Debra>, bags: &Bags)
    requires pass { IsPassOf table.now pass.old }
    requires bags { KeepsBags bags.now (view pass.old) }
    requires passed { bags.now.place ≡ (setup_of table.now).callers }
    ensures pass { IsSamePass pass.old pass.new }
    ensures bags { KeepsBags bags.now (view pass.new) }
    ensures rest { LeavesRecords (view pass.old) (view pass.new) }
    ensures tried { HasTried (view pass.old) bags.now.reading (view pass.new) }
{
    if bags.reading < LAST_EPOCH {
        let _outcome = table.exchange_control(pass, EPOCH, bags.reading, bags.reading + 1);
    }
}

// Looks at one announcement, and tries the epoch where the scan thereby passed the last one.
pub(crate) fn scan<S: Shape>(table: &Table<S, Debra>, pass: &mut Pass<S, Debra>, bags: &mut Bags)
    requires pass { IsPassOf table.now pass.old }
    requires bags { KeepsBags bags.old (view pass.old) }
    ensures pass { IsSamePass pass.old pass.new }
    ensures bags { KeepsBags bags.new (view pass.new) }
    ensures rest { LeavesRecords (view pass.old) (view pass.new) }
    ensures reading { bags.new.reading ≡ bags.old.reading }
    ensures scanned { HasScanned (setup_of table.now) (view pass.old) bags.old.reading bags.old.place bags.new.place (view pass.new) }
{
    if look(table, pass, bags) {
        advance(table, pass, bags);
    }
}

// Stores a value in its caller's first announcement word.
pub(crate) fn store_own<S: Shape>(table: &Table<S, Debra>, pass: &mut Pass<S, Debra>, value: u64)
    requires pass { IsPassOf table.now pass.old }
    requires counted { (view pass.old).own.caller < (view pass.old).setup.callers }
    requires allowed { DebraMayStore (view pass.old).setup (view pass.old).own.guard 0 value }
    ensures pass { IsSamePass pass.old pass.new }
    ensures stored { (found : ℕ) × StoredWord debra (view pass.old) 0 value found (view pass.new) }
{
    // There are at most 64 callers, so the word's number is in range.
    let _few = table.callers();
    table.store_control(pass, announcement(pass.caller(), 0), value);
}

// Announces that its caller is active at its last reading, and so begins its guard.
pub(crate) fn announce<S: Shape>(table: &Table<S, Debra>, pass: &mut Pass<S, Debra>, bags: &Bags)
    requires pass { IsPassOf table.now pass.old }
    requires bags { KeepsBags bags.now (view pass.old) }
    requires counted { (view pass.old).own.caller < (view pass.old).setup.callers }
    requires quiet { (view pass.old).own.guard.active ≡ false }
    ensures pass { IsSamePass pass.old pass.new }
    ensures bags { KeepsBags bags.now (view pass.new) }
    ensures rest { LeavesRecords (view pass.old) (view pass.new) }
    ensures announced { HasAnnounced (view pass.old) bags.now.reading (view pass.new) }
{
    store_own(table, pass, 2 * bags.reading + 1);
}
