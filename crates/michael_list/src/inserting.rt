// An insertion, within a guard.
ghost use Rattle.std.specs.Prelude.{◌≡◌, ◌<◌, ◌≤◌, ◌+◌, ◌^◌, ◌++◌, ℕ, List, Option, Some, None, MatchOption, MatchResult, IfOk};
ghost use Rattle.set_model.specs.declared.calls.Call.TheVariants.{Insert};
ghost use Rattle.row_words.specs.Refs.{RefParts, LinkParts};
ghost use Rattle.record_rule.specs.HandingOut.{IsOwnOf};
ghost use Rattle.record_table.specs.Handles.{setup_of, view};
ghost use Rattle.record_pieces.specs.Events.{Event};
ghost use Rattle.manager.specs.Callers.{AnswersNone};
ghost use Rattle.manager.specs.Guards.{IsAtWork, DidAll};
ghost use Rattle.set_calls.specs.Going.{IsSameGuard};
ghost use Rattle.set_calls.specs.Answers.{Decided, InsertTells};
ghost use Rattle.list_calls.specs.Records.{OwnsHand};
ghost use Rattle.list_calls.specs.Standing.{IsHome, StandsBefore, IsBeyond};
ghost use Rattle.michael_list.specs.Pieces.{links, Insertings, Inserts};
ghost use Rattle.michael_list.specs.Tries.{TriedTells, TriedDoes};

use crate::shape::MichaelShape;
use crate::spots::Spot;
use crate::walking::find;
use alloc_api::Allocator;
use list_calls::{give_back, take_record, target_of};
use manager::Guard;
use pool::Pool;
use reclaim_api::Scheme;
use record_memory::{KEY, LINK};
use record_table::{Held, Node, Own};
use row_words::{Link, pack_ref};
use set_calls::place_seen;
use set_model::{Call, InsertAnswer};

/// What one try of an insertion came to.
pub enum Tried {
    /// An answer.
    Answered(InsertAnswer),
    /// The record that the next try has, since a word had changed.
    Refused(Own),
}

/// Fills the record and links it between a node and the next record, as a walk for the key found them, which decides the
/// insertion. `root` is `key` modulo the number of roots, and `key` is below 2^40. `Err`: the node's link had changed.
/// Nothing was decided, and the record is handed back.
pub fn link_record<'a, R: Scheme, A: Allocator, P: Pool>(
    guard: &mut Guard<'a, MichaelShape, R, A, P>,
    root: u32,
    key: u64,
    before: Node,
    next: Option<Held>,
    mut own: Own,
) -> Result<(), Own>
    requires at_work { IsAtWork guard.old }
    requires home { IsHome (setup_of guard.old.manager.now.table) root key }
    requires key { key < 2 ^ 40 }
    requires before { StandsBefore guard.old.caller.now.pass root key before }
    requires next { IsBeyond guard.old.caller.now.pass root key next }
    requires own { IsOwnOf (view guard.old.caller.now.pass) own }
    ensures at_work { IsAtWork guard.new }
    ensures same { IsSameGuard guard.old guard.new }
    ensures tells { MatchResult result
        (λ _. Decided (Insert key) (view guard.old.caller.now.pass) (view guard.new.caller.now.pass))
        (λ again. (again ≡ own) × AnswersNone (view guard.old.caller.now.pass) (view guard.new.caller.now.pass) × IsOwnOf (view guard.new.caller.now.pass) own) }
    ensures did { MatchResult result
        (λ _. DidAll guard.old (links key before next own None) guard.new)
        (λ _. (other : LinkParts) × DidAll guard.old (links key before next own (Some other)) guard.new) }
{
    guard.store_own(&mut own, KEY, key);
    guard.store_own(&mut own, LINK, pack_ref(target_of(&next)));
    let expected = Link::to(target_of(&next));
    let decides = Some(Call::Insert(key));
    match guard.publish(before, LINK, expected, own, decides) {
        Ok(()) => Ok(()),
        Err((own, _)) => Err(own),
    }
}

// One try: a walk, and what comes of it.
fn try_insert<'a, R: Scheme, A: Allocator, P: Pool>(
    guard: &mut Guard<'a, MichaelShape, R, A, P>,
    root: u32,
    key: u64,
    budget: u32,
    hops: &mut u32,
    hand: Option<Own>,
) -> Tried
    requires at_work { IsAtWork guard.old }
    requires home { IsHome (setup_of guard.old.manager.now.table) root key }
    requires key { key < 2 ^ 40 }
    requires hops { hops.old ≤ budget }
    requires hand { OwnsHand (view guard.old.caller.now.pass) hand }
    ensures at_work { IsAtWork guard.new }
    ensures same { IsSameGuard guard.old guard.new }
    ensures hops { hops.new ≤ budget }
    ensures tells { TriedTells key hops.old hops.new result (view guard.old.caller.now.pass) (view guard.new.caller.now.pass) }
    ensures did { (es : List Event) × DidAll guard.old es guard.new × ((ds : List Event) → Insertings root key hops.old hand ds → TriedDoes root key budget hops.new (ds ++ es) result) }
{
    match find(guard, root, key, budget, hops) {
        None => {
            give_back(guard, hand);
            Tried::Answered(InsertAnswer::Again { hops: *hops })
        }
        Some(Spot::Present { .. }) => {
            give_back(guard, hand);
            place_seen(guard, Call::Insert(key), false);
            Tried::Answered(InsertAnswer::Done(false))
        }
        Some(Spot::Absent { before, next }) => match take_record(guard, hand) {
            Ok(own) => match link_record(guard, root, key, before, next, own) {
                Ok(()) => Tried::Answered(InsertAnswer::Done(true)),
                Err(own) => Tried::Refused(own),
            },
            Err(none) => Tried::Answered(InsertAnswer::Full { found: none.found }),
        },
    }
}

// Tries until one is answered.
pub(crate) fn insert<'a, R: Scheme, A: Allocator, P: Pool>(
    guard: &mut Guard<'a, MichaelShape, R, A, P>,
    root: u32,
    key: u64,
    budget: u32,
) -> InsertAnswer
    requires at_work { IsAtWork guard.old }
    requires home { IsHome (setup_of guard.old.manager.now.table) root key }
    requires key { key < 2 ^ 40 }
    ensures at_work { IsAtWork guard.new }
    ensures same { IsSameGuard guard.old guard.new }
    ensures tells { InsertTells key result (view guard.old.caller.now.pass) (view guard.new.caller.now.pass) }
    ensures did { (es : List Event) × Inserts root key budget result es × DidAll guard.old es guard.new }
{
    let mut hops = 0;
    let mut hand = None;
    loop {
        match try_insert(guard, root, key, budget, &mut hops, hand) {
            Tried::Answered(answer) => return answer,
            Tried::Refused(own) => hand = Some(own),
        }
    }
}
