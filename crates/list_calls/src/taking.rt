// The record that an insertion has from its tries.
ghost use Rattle.std.specs.Prelude.{◌≡◌, List, None, MatchResult, IfOk};
ghost use Rattle.record_rule.specs.HandingOut.{IsOwnOf};
ghost use Rattle.record_table.specs.Handles.{view};
ghost use Rattle.record_pieces.specs.Events.{Event, refused};
ghost use Rattle.reclaim_api.specs.Holds.{KeepsHeld};
ghost use Rattle.manager.specs.Callers.{AnswersNone};
ghost use Rattle.manager.specs.Guards.{IsAtWork, Did, DidAll};
ghost use Rattle.set_calls.specs.Going.{IsSameGuard, GoesOn};
ghost use Rattle.list_calls.specs.Records.{target_of, back, HasRecord, OwnsHand};

use alloc_api::{Allocator, NoRecord};
use manager::Guard;
use pool::Pool;
use reclaim_api::Scheme;
use record_table::{Held, Own, Shape};
use row_words::Ref;

/// The record that the call has from an earlier try, its `hand`, or a fresh one. The refusal is that of
/// `Guard::fresh`, and comes only where `hand` has none.
pub fn take_record<'a, S: Shape, R: Scheme, A: Allocator, P: Pool>(
    guard: &mut Guard<'a, S, R, A, P>,
    hand: Option<Own>,
) -> Result<Own, NoRecord>
    requires at_work { IsAtWork guard.old }
    requires hand { OwnsHand (view guard.old.caller.now.pass) hand }
    ensures at_work { IsAtWork guard.new }
    ensures on { GoesOn guard.old guard.new }
    ensures keeps { KeepsHeld guard.old.caller.now.pass guard.new.caller.now.pass }
    ensures own { IfOk result (λ own. IsOwnOf (view guard.new.caller.now.pass) own) }
    ensures did { MatchResult result
        (λ own. (es : List Event) × HasRecord own hand es × DidAll guard.old es guard.new)
        (λ none. (hand ≡ None) × Did guard.old (refused none.found) guard.new) }
{
    match hand {
        Some(own) => Ok(own),
        None => guard.fresh(),
    }
}

/// Gives the record back that the call has from its tries and doesn't need, if it has one: it is spare then.
pub fn give_back<'a, S: Shape, R: Scheme, A: Allocator, P: Pool>(
    guard: &mut Guard<'a, S, R, A, P>,
    hand: Option<Own>,
)
    requires at_work { IsAtWork guard.old }
    requires hand { OwnsHand (view guard.old.caller.now.pass) hand }
    ensures at_work { IsAtWork guard.new }
    ensures same { IsSameGuard guard.old guard.new }
    ensures answers { AnswersNone (view guard.old.caller.now.pass) (view guard.new.caller.now.pass) }
    ensures keeps { KeepsHeld guard.old.caller.now.pass guard.new.caller.now.pass }
    ensures seen { (view guard.new.caller.now.pass).own.updates_seen ≡ (view guard.old.caller.now.pass).own.updates_seen }
    ensures did { DidAll guard.old (back hand) guard.new }
{
    if let Some(own) = hand {
        guard.give_back(own);
    }
}

/// The reference of the record that a walk found behind the key's place, if there is one.
pub fn target_of(next: &Option<Held>) -> Option<Ref>
    ensures { result ≡ target_of next.now }
{
    match next {
        Some(at) => Some(at.target),
        None => None,
    }
}
