// How a caller gives chains of its free records to the pool.
ghost use Rattle.std.specs.Prelude.{◌≡◌, ◌≢◌, ◌<◌, ◌≤◌, ◌+◌, ℕ, true, false};
ghost use Rattle.row_words.specs.Refs.{RefParts};
ghost use Rattle.row_words.specs.Rows.{with_next};
ghost use Rattle.record_rule.specs.Asides.{chain_word};
ghost use Rattle.record_rule.specs.ChainRows.{row_in, OwnsAway};
ghost use Rattle.record_rule.specs.Kinds.{loaded, stored};
ghost use Rattle.record_memory.specs.declared.books.Standing.TheVariants.{Free};
ghost use Rattle.record_table.specs.Handles.{setup_of, view, IsPassOf, IsSamePass};
ghost use Rattle.reclaim_api.specs.Chained.{IsChainOf};
ghost use Rattle.record_pieces.specs.Giving.{GivesOne, KeepsOne, GivesChains};
ghost use Rattle.manager.specs.Manners.{gives_by};
ghost use Rattle.manager.specs.Callers.{IsWorking};
ghost use Rattle.manager.specs.Giving.{GoesAlong, GivesFree};

use crate::types::Caller;
use pool::{Given, Pool};
use reclaim_api::Scheme;
use record_table::{Pass, Rows, Shape, Table};
use row_words::{Chain, ChainWords, Freed, Ref};

// A caller gives chains while it has this many free records.
const MANY: u32 = 64;

// How many records a chain has that is given.
const AT_ONCE: u32 = 32;

// The record that comes after `r` in its chain, by one load.
fn load_next<S: Shape, R: Scheme>(table: &Table<S, R>, pass: &mut Pass<S, R>, r: Ref) -> Option<Ref>
    requires of { IsPassOf table.now pass.old }
    requires owned { OwnsAway (view pass.old) r }
    ensures of { IsPassOf table.now pass.new }
    ensures pass { IsSamePass pass.old pass.new }
    ensures next { result ≡ (row_in (view pass.old) r).next }
    ensures step { (n : ℕ) × (view pass.new ≡ loaded (view pass.old) r.index 1 n) }
{
    let mut rows = Rows { table, pass };
    let next = rows.load_chain(r);
    let Rows { table: _, pass: _ } = rows;
    next
}

// Makes `next` the record that comes after `r`, or lets its chain end there, by one store.
fn store_next<S: Shape, R: Scheme>(
    table: &Table<S, R>,
    pass: &mut Pass<S, R>,
    r: Ref,
    next: Option<Ref>,
)
    requires of { IsPassOf table.now pass.old }
    requires owned { OwnsAway (view pass.old) r }
    ensures of { IsPassOf table.now pass.new }
    ensures pass { IsSamePass pass.old pass.new }
    ensures row { row_in (view pass.new) r ≡ with_next (row_in (view pass.old) r) next }
    ensures others { (q : RefParts) → q.index ≢ r.index → row_in (view pass.new) q ≡ row_in (view pass.old) q }
    ensures step { view pass.new ≡ stored (view pass.old) r.index 1 (chain_word r.generation next) }
{
    let mut rows = Rows { table, pass };
    rows.store_chain(r, next);
    let Rows { table: _, pass: _ } = rows;
}

// The 32nd record of the free ones, and the one that comes after it.
fn go_along<S: Shape, R: Scheme>(
    table: &Table<S, R>,
    pass: &mut Pass<S, R>,
    free: &Chain,
) -> (Ref, Option<Ref>)
    requires of { IsPassOf table.now pass.old }
    requires list { IsChainOf Free (view pass.old) free.now }
    requires enough { 32 ≤ free.now.count }
    ensures of { IsPassOf table.now pass.new }
    ensures pass { IsSamePass pass.old pass.new }
    ensures along { GoesAlong (view pass.old) free.now result.0 result.1 (view pass.new) }
{
    let mut last = free.head.unwrap();
    for _step in 0..AT_ONCE - 1 {
        last = load_next(table, pass, last).unwrap();
    }
    let next = load_next(table, pass, last);
    (last, next)
}

// Gives the first 32 free records to the pool. Where that takes none, they stay.
fn give_first<S: Shape, R: Scheme, P: Pool>(table: &Table<S, R>, caller: &mut Caller<S, R>) -> bool
    requires of { IsPassOf table.now caller.old.pass }
    requires caller { IsWorking R.is_local caller.old }
    requires enough { 32 ≤ caller.old.free.count }
    ensures of { IsPassOf table.now caller.new.pass }
    ensures caller { IsWorking R.is_local caller.new }
    ensures pass { IsSamePass caller.old.pass caller.new.pass }
    ensures spare { caller.new.spare ≡ caller.old.spare }
    ensures free { GivesFree (view caller.old.pass) (view caller.new.pass) }
    ensures fewer { result ≡ true → caller.new.free.count + 32 ≡ caller.old.free.count }
    ensures gave { result ≡ true → GivesOne P.SHELVES (gives_by P.SHELVES P.busy (setup_of table.now)) (view caller.old.pass).own (view caller.new.pass).own }
    ensures kept { result ≡ false → KeepsOne P.SHELVES (gives_by P.SHELVES P.busy (setup_of table.now)) (view caller.old.pass).own (view caller.new.pass).own }
{
    let (last, next) = go_along(table, &mut caller.pass, &caller.free);
    store_next(table, &mut caller.pass, last, None);
    let chain = Chain {
        head: caller.free.head,
        count: AT_ONCE,
    };
    match P::give(table, &mut caller.pass, chain) {
        Given::Done => {
            caller.free.head = next;
            caller.free.count -= AT_ONCE;
            true
        }
        Given::Kept(_) => {
            store_next(table, &mut caller.pass, last, next);
            false
        }
    }
}

// Gives chains of 32 free records to the pool, once some became free, while the caller has at least 64 and the
// pool takes them.
pub(crate) fn give_chains<S: Shape, R: Scheme, P: Pool>(
    table: &Table<S, R>,
    caller: &mut Caller<S, R>,
    left: Freed,
)
    requires of { IsPassOf table.now caller.old.pass }
    requires caller { IsWorking R.is_local caller.old }
    ensures of { IsPassOf table.now caller.new.pass }
    ensures caller { IsWorking R.is_local caller.new }
    ensures pass { IsSamePass caller.old.pass caller.new.pass }
    ensures spare { caller.new.spare ≡ caller.old.spare }
    ensures free { GivesFree (view caller.old.pass) (view caller.new.pass) }
    ensures did { GivesChains P.SHELVES (gives_by P.SHELVES P.busy (setup_of table.now)) left (view caller.old.pass).own (view caller.new.pass).own }
{
    if left.freed == 0 || P::SHELVES == 0 {
        return;
    }
    while caller.free.count >= MANY {
        if !give_first::<S, R, P>(table, caller) {
            return;
        }
    }
}
