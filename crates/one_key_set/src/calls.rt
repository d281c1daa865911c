// The three calls of the set, each within a guard.
ghost use Rattle.std.specs.Prelude.{◌≡◌, ◌<◌, ◌++◌, [], ◌∷◌, List, Some, None, MatchBool};
ghost use Rattle.set_model.specs.declared.calls.Call.TheVariants.{Remove};
ghost use Rattle.row_words.specs.Refs.{LinkParts};
ghost use Rattle.record_rule.specs.HandingOut.{IsOwnOf};
ghost use Rattle.record_table.specs.Handles.{setup_of, view};
ghost use Rattle.record_pieces.specs.Events.{Event, gave_back};
ghost use Rattle.manager.specs.Guards.{IsAtWork, DidAll};
ghost use Rattle.set_calls.specs.Going.{IsSameGuard};
ghost use Rattle.one_key_set.specs.Knowing.{HoldsKey};
ghost use Rattle.one_key_set.specs.Answers.{added_if, some_if, Tells, InsertTells, SearchTells};
ghost use Rattle.one_key_set.specs.Pieces.{links, marks, TakesOut, Inserts, Removes, Searches, Repeats};

use crate::answers::Added;
use crate::looking::{Seen, look, take_out};
use crate::shape::OneKeyShape;
use alloc_api::Allocator;
use manager::Guard;
use pool::Pool;
use reclaim_api::Scheme;
use record_memory::{KEY, LINK};
use record_table::{Held, Node, Own};
use row_words::{Link, pack_ref};
use set_calls::{place_seen, same_held};
use set_model::Call;

// Fills a record and links it behind the empty root of its key, which decides the insertion. `false`: the root led
// somewhere, and the record was given back.
fn link_record<'a, R: Scheme, A: Allocator, P: Pool>(
    guard: &mut Guard<'a, OneKeyShape, R, A, P>,
    key: u32,
    mut own: Own,
) -> bool
    requires at_work { IsAtWork guard.old }
    requires key { key < (setup_of guard.old.manager.now.table).roots }
    requires own { IsOwnOf (view guard.old.caller.now.pass) own }
    ensures at_work { IsAtWork guard.new }
    ensures same { IsSameGuard guard.old guard.new }
    ensures tells { InsertTells key (added_if result) (view guard.old.caller.now.pass) (view guard.new.caller.now.pass) }
    ensures did { MatchBool result (DidAll guard.old (links key own None) guard.new) ((other : LinkParts) × DidAll guard.old (links key own (Some other) ++ gave_back own ∷ []) guard.new) }
{
    let number = u64::from(key);
    guard.store_own(&mut own, KEY, number);
    guard.store_own(&mut own, LINK, pack_ref(None));
    let decides = Some(Call::Insert(number));
    match guard.publish(Node::Root(key), LINK, Link::to(None), own, decides) {
        Ok(()) => true,
        Err((own, _)) => {
            guard.give_back(own);
            false
        }
    }
}

// One try of an insertion. `Again`: a word had changed.
fn try_insert<'a, R: Scheme, A: Allocator, P: Pool>(
    guard: &mut Guard<'a, OneKeyShape, R, A, P>,
    key: u32,
) -> Added
    requires at_work { IsAtWork guard.old }
    requires key { key < (setup_of guard.old.manager.now.table).roots }
    ensures at_work { IsAtWork guard.new }
    ensures same { IsSameGuard guard.old guard.new }
    ensures tells { InsertTells key result (view guard.old.caller.now.pass) (view guard.new.caller.now.pass) }
    ensures did { (es : List Event) × Inserts key result es × DidAll guard.old es guard.new }
{
    match look(guard, key) {
        Seen::Absent => match guard.fresh() {
            Ok(own) => {
                if link_record(guard, key, own) {
                    Added::Done(true)
                } else {
                    Added::Again
                }
            }
            Err(none) => Added::Full { found: none.found },
        },
        Seen::Present(_) => {
            place_seen(guard, Call::Insert(u64::from(key)), false);
            Added::Done(false)
        }
        Seen::Changed => Added::Again,
    }
}

// Marks a held record, which decides the removal of its key, and takes it out. `false`: it was marked before.
fn mark<'a, R: Scheme, A: Allocator, P: Pool>(
    guard: &mut Guard<'a, OneKeyShape, R, A, P>,
    key: u32,
    at: Held,
) -> bool
    requires at_work { IsAtWork guard.old }
    requires key { key < (setup_of guard.old.manager.now.table).roots }
    requires at { HoldsKey guard.old.caller.now.pass key at }
    ensures at_work { IsAtWork guard.new }
    ensures same { IsSameGuard guard.old guard.new }
    ensures tells { Tells (Remove key) (some_if result) (view guard.old.caller.now.pass) (view guard.new.caller.now.pass) }
    ensures did { MatchBool result
        ((es : List Event) × TakesOut key at es × DidAll guard.old (marks key at None ++ es) guard.new)
        ((other : LinkParts) × DidAll guard.old (marks key at (Some other)) guard.new) }
{
    let old = Link::to(None);
    let decides = Some(Call::Remove(u64::from(key)));
    match guard.exchange_link(Node::At(same_held(&at)), LINK, old, old.marked(), decides) {
        Ok(()) => {
            take_out(guard, key, at);
            true
        }
        Err(_) => false,
    }
}

// One try of a removal. `None`: a word had changed.
fn try_remove<'a, R: Scheme, A: Allocator, P: Pool>(
    guard: &mut Guard<'a, OneKeyShape, R, A, P>,
    key: u32,
) -> Option<bool>
    requires at_work { IsAtWork guard.old }
    requires key { key < (setup_of guard.old.manager.now.table).roots }
    ensures at_work { IsAtWork guard.new }
    ensures same { IsSameGuard guard.old guard.new }
    ensures tells { Tells (Remove key) result (view guard.old.caller.now.pass) (view guard.new.caller.now.pass) }
    ensures did { (es : List Event) × Removes key result es × DidAll guard.old es guard.new }
{
    match look(guard, key) {
        Seen::Absent => {
            place_seen(guard, Call::Remove(u64::from(key)), false);
            Some(false)
        }
        Seen::Present(at) => {
            if mark(guard, key, at) {
                Some(true)
            } else {
                None
            }
        }
        Seen::Changed => None,
    }
}

// One try of a search. `None`: a word had changed.
fn try_search<'a, R: Scheme, A: Allocator, P: Pool>(
    guard: &mut Guard<'a, OneKeyShape, R, A, P>,
    key: u32,
) -> Option<bool>
    requires at_work { IsAtWork guard.old }
    requires key { key < (setup_of guard.old.manager.now.table).roots }
    ensures at_work { IsAtWork guard.new }
    ensures same { IsSameGuard guard.old guard.new }
    ensures tells { SearchTells key result (view guard.old.caller.now.pass) (view guard.new.caller.now.pass) }
    ensures did { (es : List Event) × Searches key result es × DidAll guard.old es guard.new }
{
    let found = match look(guard, key) {
        Seen::Absent => false,
        Seen::Present(_) => true,
        Seen::Changed => return None,
    };
    place_seen(guard, Call::Search(u64::from(key)), found);
    Some(found)
}

/// Adds the key, with at most `tries` tries. `Done(true)`: its insertion took effect, behind all updates that the
/// caller knew of. `Done(false)`: the key was in the set after some updates that the guard has seen. At `Full` and
/// at `Again` no call was answered.
pub fn insert<'a, R: Scheme, A: Allocator, P: Pool>(
    guard: &mut Guard<'a, OneKeyShape, R, A, P>,
    key: u32,
    tries: u32,
) -> Added
    requires at_work { IsAtWork guard.old }
    requires key { key < (setup_of guard.old.manager.now.table).roots }
    ensures at_work { IsAtWork guard.new }
    ensures same { IsSameGuard guard.old guard.new }
    ensures tells { InsertTells key result (view guard.old.caller.now.pass) (view guard.new.caller.now.pass) }
    ensures did { (es : List Event) × Repeats (Inserts key) Added.Again tries result es × DidAll guard.old es guard.new }
{
    let mut left = tries;
    while left > 0 {
        left -= 1;
        match try_insert(guard, key) {
            Added::Again => {}
            Added::Full { found } => return Added::Full { found },
            Added::Done(added) => return Added::Done(added),
        }
    }
    Added::Again
}

/// Removes the key, with at most `tries` tries. `Some(true)`: its removal took effect, behind all updates that the
/// caller knew of. `Some(false)`: the key wasn't in the set after some updates that the guard has seen. At `None` a
/// word had changed at each try, and no call was answered.
pub fn remove<'a, R: Scheme, A: Allocator, P: Pool>(
    guard: &mut Guard<'a, OneKeyShape, R, A, P>,
    key: u32,
    tries: u32,
) -> Option<bool>
    requires at_work { IsAtWork guard.old }
    requires key { key < (setup_of guard.old.manager.now.table).roots }
    ensures at_work { IsAtWork guard.new }
    ensures same { IsSameGuard guard.old guard.new }
    ensures tells { Tells (Remove key) result (view guard.old.caller.now.pass) (view guard.new.caller.now.pass) }
    ensures did { (es : List Event) × Repeats (Removes key) None tries result es × DidAll guard.old es guard.new }
{
    let mut left = tries;
    while left > 0 {
        left -= 1;
        if let Some(removed) = try_remove(guard, key) {
            return Some(removed);
        }
    }
    None
}

/// Looks for the key, with at most `tries` tries: whether it was in the set after some updates that the guard has
/// seen. At `None` a word had changed at each try, and no call was answered.
pub fn search<'a, R: Scheme, A: Allocator, P: Pool>(
    guard: &mut Guard<'a, OneKeyShape, R, A, P>,
    key: u32,
    tries: u32,
) -> Option<bool>
    requires at_work { IsAtWork guard.old }
    requires key { key < (setup_of guard.old.manager.now.table).roots }
    ensures at_work { IsAtWork guard.new }
    ensures same { IsSameGuard guard.old guard.new }
    ensures tells { SearchTells key result (view guard.old.caller.now.pass) (view guard.new.caller.now.pass) }
    ensures did { (es : List Event) × Repeats (Searches key) None tries result es × DidAll guard.old es guard.new }
{
    let mut left = tries;
    while left > 0 {
        left -= 1;
        if let Some(found) = try_search(guard, key) {
            return Some(found);
        }
    }
    None
}
