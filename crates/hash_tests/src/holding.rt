// What a caller holds while another one works.
ghost use Rattle.std.specs.Prelude.{◌≡◌, ◌≤◌, All, IfSome};
ghost use Rattle.record_table.specs.Handles.{view, IsSamePass};
ghost use Rattle.record_table.specs.Nodes.{HoldsThere};
ghost use Rattle.manager.specs.Callers.{KeepsLocks};
ghost use Rattle.manager.specs.Guards.{IsAtWork};
ghost use Rattle.set_model.specs.Machine.{key_of};
ghost use Rattle.michael_hash.specs.Callers.{IsWholeCallerOf};

use crate::reclaimed::{are_told, come_and_go, play};
use alloc_bump::Bump;
use manager::{Caller, Guard};
use michael_hash::MichaelHash;
use michael_list::MichaelShape;
use pool::NoPool;
use reclaim_api::{Holding, Scheme};
use record_table::{Held, Node};
use row_words::Ref;
use set_api::Answer;
use set_calls::same_held;
use set_model::{Call, Counts};

// Holds what the link of the first bucket leads to, and loads its key behind these calls of another caller: the record,
// whether they were answered as told here, and the key.
fn hold_meanwhile<'a, R: Scheme>(
    hash: &MichaelHash<R, Bump, NoPool>,
    guard: &mut Guard<'a, MichaelShape, R, Bump, NoPool>,
    other: &mut Caller<MichaelShape, R>,
    calls: &[(Call, Answer)],
) -> Option<(Ref, bool, u64)>
    requires at_work { IsAtWork guard.old }
    requires other { IsWholeCallerOf R.is_local hash.now.lists.manager.table other.old }
    requires keys { All (λ told. key_of told.0 ≤ 1099511627773) calls.now }
    ensures at_work { IsAtWork guard.new }
    ensures same { (guard.new.caller.ghost_name ≡ guard.old.caller.ghost_name) × (guard.new.manager.now ≡ guard.old.manager.now) }
    ensures pass { IsSamePass guard.old.caller.now.pass guard.new.caller.now.pass }
    ensures locks { KeepsLocks (view guard.old.caller.now.pass) (view guard.new.caller.now.pass) }
    ensures other { IsWholeCallerOf R.is_local hash.now.lists.manager.table other.new }
{
    let found = guard.hold(0, Node::Root(0), 3);
    let Holding::Held(held) = found else {
        return None;
    };
    let kept = same_held(&held);
    let told = are_told(hash, other, calls);
    let key = guard.load_key(held);
    Some((kept.target, told, key))
}

// The same inside a guard of this caller's.
pub(crate) fn held_meanwhile<R: Scheme>(
    hash: &MichaelHash<R, Bump, NoPool>,
    caller: &mut Caller<MichaelShape, R>,
    other: &mut Caller<MichaelShape, R>,
    calls: &[(Call, Answer)],
) -> Option<(Ref, bool, u64)>
    requires caller { IsWholeCallerOf R.is_local hash.now.lists.manager.table caller.old }
    requires other { IsWholeCallerOf R.is_local hash.now.lists.manager.table other.old }
    requires keys { All (λ told. key_of told.0 ≤ 1099511627773) calls.now }
    ensures caller { IsWholeCallerOf R.is_local hash.now.lists.manager.table caller.new }
    ensures other { IsWholeCallerOf R.is_local hash.now.lists.manager.table other.new }
{
    let mut guard = hash.begin(caller);
    let came = hold_meanwhile(hash, &mut guard, other, calls);
    guard.finish();
    came
}

// What became of a record that a caller held while key 1, which it had, was taken away, and further keys came and went.
pub(crate) struct Kept {
    // The record.
    pub(crate) record: Ref,
    // All of that was done.
    pub(crate) done: bool,
    // What the caller that did it counted then.
    pub(crate) counts: Counts,
    // The key that the record had behind this.
    pub(crate) key: u64,
}

// Holds what the link of the first bucket leads to, and loads its key once another caller has taken key 1 away and added
// and taken away the keys from 2 to the last one.
pub(crate) fn hold_while_keys_go<'a, R: Scheme>(
    hash: &MichaelHash<R, Bump, NoPool>,
    guard: &mut Guard<'a, MichaelShape, R, Bump, NoPool>,
    other: &mut Caller<MichaelShape, R>,
    last: u64,
) -> Option<Kept>
    requires at_work { IsAtWork guard.old }
    requires other { IsWholeCallerOf R.is_local hash.now.lists.manager.table other.old }
    requires keys { last ≤ 1099511627773 }
    ensures at_work { IsAtWork guard.new }
    ensures same { (guard.new.caller.ghost_name ≡ guard.old.caller.ghost_name) × (guard.new.manager.now ≡ guard.old.manager.now) }
    ensures pass { IsSamePass guard.old.caller.now.pass guard.new.caller.now.pass }
    ensures locks { KeepsLocks (view guard.old.caller.now.pass) (view guard.new.caller.now.pass) }
    ensures other { IsWholeCallerOf R.is_local hash.now.lists.manager.table other.new }
{
    let found = guard.hold(0, Node::Root(0), 3);
    let Holding::Held(held) = found else {
        return None;
    };
    let record = held.target;
    let gone = play(hash, other, Call::Remove(1)) == Answer::Done(true);
    let done = come_and_go(hash, other, 2, last) && gone;
    let counts = hash.counts(other);
    let key = guard.load_key(held);
    Some(Kept {
        record,
        done,
        counts,
        key,
    })
}

// Holds the first three records of the first bucket, each from the one before, at the places 0, 1 and 2.
pub(crate) fn hold_three<'a, R: Scheme>(
    guard: &mut Guard<'a, MichaelShape, R, Bump, NoPool>,
) -> Option<(Held, Held, Held)>
    requires at_work { IsAtWork guard.old }
    ensures at_work { IsAtWork guard.new }
    ensures same { (guard.new.caller.ghost_name ≡ guard.old.caller.ghost_name) × (guard.new.manager.now ≡ guard.old.manager.now) }
    ensures pass { IsSamePass guard.old.caller.now.pass guard.new.caller.now.pass }
    ensures locks { KeepsLocks (view guard.old.caller.now.pass) (view guard.new.caller.now.pass) }
    ensures held { IfSome result (λ three. HoldsThere guard.new.caller.now.pass three.0 × HoldsThere guard.new.caller.now.pass three.1
        × HoldsThere guard.new.caller.now.pass three.2) }
{
    let Holding::Held(first) = guard.hold(0, Node::Root(0), 3) else {
        return None;
    };
    let Holding::Held(second) = guard.hold(1, Node::At(same_held(&first)), 3) else {
        return None;
    };
    let Holding::Held(third) = guard.hold(2, Node::At(same_held(&second)), 3) else {
        return None;
    };
    Some((first, second, third))
}

// Loads the keys of three records that are held.
pub(crate) fn keys_of_three<'a, R: Scheme>(
    guard: &mut Guard<'a, MichaelShape, R, Bump, NoPool>,
    three: (Held, Held, Held),
) -> [u64; 3]
    requires at_work { IsAtWork guard.old }
    requires held { HoldsThere guard.old.caller.now.pass three.0 × HoldsThere guard.old.caller.now.pass three.1
        × HoldsThere guard.old.caller.now.pass three.2 }
    ensures at_work { IsAtWork guard.new }
    ensures same { (guard.new.caller.ghost_name ≡ guard.old.caller.ghost_name) × (guard.new.manager.now ≡ guard.old.manager.now) }
    ensures pass { IsSamePass guard.old.caller.now.pass guard.new.caller.now.pass }
    ensures locks { KeepsLocks (view guard.old.caller.now.pass) (view guard.new.caller.now.pass) }
{
    let (first, second, third) = three;
    [
        guard.load_key(first),
        guard.load_key(second),
        guard.load_key(third),
    ]
}
