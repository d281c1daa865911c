// A removal and a search, within a guard.
ghost use Rattle.std.specs.Prelude.{◌≡◌, ◌<◌, ◌≤◌, ◌++◌, ℕ, List, Option, Some, None, MatchOption, MatchBool, ◌+◌, false};
ghost use Rattle.set_model.specs.declared.calls.Call.TheVariants.{Remove};
ghost use Rattle.row_words.specs.Refs.{LinkParts};
ghost use Rattle.row_words.specs.Packing.{packed_link, IsLink};
ghost use Rattle.record_rule.specs.Facts.{At as Stands};
ghost use Rattle.record_rule.specs.Links.{note_in};
ghost use Rattle.record_rule.specs.Placing.{placed_view};
ghost use Rattle.list_facts.specs.Michael.{michael};
ghost use Rattle.list_facts.specs.Steps.{marked_with};
ghost use Rattle.record_table.specs.Handles.{setup_of, view};
ghost use Rattle.record_table.specs.Nodes.{origin_held, HasStarted, MayPlaceIn};
ghost use Rattle.record_table.specs.declared.nodes.Node.TheVariants.{At};
ghost use Rattle.record_pieces.specs.Events.{Event, placed};
ghost use Rattle.reclaim_api.specs.Holds.{KeepsButLink};
ghost use Rattle.manager.specs.Callers.{AnswersNone};
ghost use Rattle.manager.specs.Guards.{IsAtWork, Did, DidAll};
ghost use Rattle.set_calls.specs.Going.{IsSameGuard};
ghost use Rattle.set_calls.specs.Answers.{Decided, RemoveTells, SearchTells};
ghost use Rattle.michael_list.specs.Pieces.{marks, Removings, Removes, Searches};
ghost use Rattle.list_calls.specs.Standing.{IsHome, StandsAt, rank};
ghost use Rattle.michael_list.specs.Knowing.{absent_at};

use crate::shape::MichaelShape;
use crate::spots::Spot;
use crate::walking::{find, take_out};
use alloc_api::Allocator;
use manager::Guard;
use pool::Pool;
use reclaim_api::Scheme;
use record_memory::LINK;
use record_table::{Held, Node};
use row_words::Link;
use set_calls::{place_reached, place_seen, same_held};
use set_model::{Call, LookAnswer};

/// Marks the record with the key, where its link is still this one, as a walk found it, which decides the removal.
/// `false`: its link had changed, and nothing was decided.
pub fn mark<'a, R: Scheme, A: Allocator, P: Pool>(
    guard: &mut Guard<'a, MichaelShape, R, A, P>,
    root: u32,
    key: u64,
    at: &Held,
    link: Link,
) -> bool
    requires at_work { IsAtWork guard.old }
    requires at { StandsAt guard.old.caller.now.pass root (At at.now) × (rank guard.old.caller.now.pass (At at.now) ≡ key + 1) }
    requires link { (link.flags ≡ 0) × IsLink link }
    ensures at_work { IsAtWork guard.new }
    ensures same { IsSameGuard guard.old guard.new }
    ensures keeps { KeepsButLink (origin_held at.now) guard.old.caller.now.pass guard.new.caller.now.pass }
    ensures tells { MatchBool result
        (Decided (Remove key) (view guard.old.caller.now.pass) (view guard.new.caller.now.pass) × ((generation : ℕ) × Stands (note_in (view guard.new.caller.now.pass).own.notes at.now.place).words 0 (Some (packed_link generation (marked_with link)))))
        (AnswersNone (view guard.old.caller.now.pass) (view guard.new.caller.now.pass)) }
    ensures did { MatchBool result (DidAll guard.old (marks key at.now link None) guard.new) ((other : LinkParts) × DidAll guard.old (marks key at.now link (Some other)) guard.new) }
{
    let decides = Some(Call::Remove(key));
    match guard.exchange_link(Node::At(same_held(at)), LINK, link, link.marked(), decides) {
        Ok(()) => true,
        Err(_) => false,
    }
}

/// Places a removal or a search of a key that a walk found absent, where it saw that: when it reached the record behind
/// the key's place, or, at the end of the list, by its last look.
pub fn place_absent<'a, R: Scheme, A: Allocator, P: Pool>(
    guard: &mut Guard<'a, MichaelShape, R, A, P>,
    next: &Option<Held>,
    call: Call,
)
    requires at_work { IsAtWork guard.old }
    requires started { HasStarted guard.old.caller.now.pass }
    requires allowed { MayPlaceIn michael (view guard.old.caller.now.pass) (absent_at (view guard.old.caller.now.pass) next.now) call false }
    ensures at_work { IsAtWork guard.new }
    ensures same { IsSameGuard guard.old guard.new }
    ensures step { (found : ℕ) × (view guard.new.caller.now.pass ≡ placed_view (view guard.old.caller.now.pass) 0 found (absent_at (view guard.old.caller.now.pass) next.now) call false) }
    ensures did { Did guard.old (placed call false (absent_at (view guard.old.caller.now.pass) next.now)) guard.new }
{
    match next {
        Some(at) => place_reached(guard, at, call, false),
        None => place_seen(guard, call, false),
    }
}

// One try: a walk, and what comes of it. `None`: a word had changed.
fn try_remove<'a, R: Scheme, A: Allocator, P: Pool>(
    guard: &mut Guard<'a, MichaelShape, R, A, P>,
    root: u32,
    key: u64,
    budget: u32,
    hops: &mut u32,
) -> Option<LookAnswer>
    requires at_work { IsAtWork guard.old }
    requires home { IsHome (setup_of guard.old.manager.now.table) root key }
    requires hops { hops.old ≤ budget }
    ensures at_work { IsAtWork guard.new }
    ensures same { IsSameGuard guard.old guard.new }
    ensures hops { hops.new ≤ budget }
    ensures tells { MatchOption result ((hops.old < hops.new) × AnswersNone (view guard.old.caller.now.pass) (view guard.new.caller.now.pass)) (λ answer. RemoveTells key answer (view guard.old.caller.now.pass) (view guard.new.caller.now.pass)) }
    ensures did { (es : List Event) × DidAll guard.old es guard.new × ((ds : List Event) → Removings root key hops.old ds → MatchOption result (Removings root key hops.new (ds ++ es)) (λ answer. Removes root key budget answer (ds ++ es))) }
{
    match find(guard, root, key, budget, hops) {
        None => Some(LookAnswer::Again { hops: *hops }),
        Some(Spot::Absent { next, .. }) => {
            place_absent(guard, &next, Call::Remove(key));
            Some(LookAnswer::Done(false))
        }
        Some(Spot::Present { before, at, link }) => {
            if !mark(guard, root, key, &at, link) {
                return None;
            }
            take_out(guard, &before, &at, link);
            Some(LookAnswer::Done(true))
        }
    }
}

// Tries until one is answered.
pub(crate) fn remove<'a, R: Scheme, A: Allocator, P: Pool>(
    guard: &mut Guard<'a, MichaelShape, R, A, P>,
    root: u32,
    key: u64,
    budget: u32,
) -> LookAnswer
    requires at_work { IsAtWork guard.old }
    requires home { IsHome (setup_of guard.old.manager.now.table) root key }
    ensures at_work { IsAtWork guard.new }
    ensures same { IsSameGuard guard.old guard.new }
    ensures tells { RemoveTells key result (view guard.old.caller.now.pass) (view guard.new.caller.now.pass) }
    ensures did { (es : List Event) × Removes root key budget result es × DidAll guard.old es guard.new }
{
    let mut hops = 0;
    'tries: loop {
        if let Some(answer) = try_remove(guard, root, key, budget, &mut hops) {
            return answer;
        }
    }
}

// One walk, and what it saw.
pub(crate) fn search<'a, R: Scheme, A: Allocator, P: Pool>(
    guard: &mut Guard<'a, MichaelShape, R, A, P>,
    root: u32,
    key: u64,
    budget: u32,
) -> LookAnswer
    requires at_work { IsAtWork guard.old }
    requires home { IsHome (setup_of guard.old.manager.now.table) root key }
    ensures at_work { IsAtWork guard.new }
    ensures same { IsSameGuard guard.old guard.new }
    ensures tells { SearchTells key result (view guard.old.caller.now.pass) (view guard.new.caller.now.pass) }
    ensures did { (es : List Event) × Searches root key budget result es × DidAll guard.old es guard.new }
{
    let mut hops = 0;
    match find(guard, root, key, budget, &mut hops) {
        None => LookAnswer::Again { hops },
        Some(Spot::Present { .. }) => {
            place_seen(guard, Call::Search(key), true);
            LookAnswer::Done(true)
        }
        Some(Spot::Absent { next, .. }) => {
            place_absent(guard, &next, Call::Search(key));
            LookAnswer::Done(false)
        }
    }
}
