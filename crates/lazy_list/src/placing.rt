// Where a call that found its key absent stands in the one history, though the record that showed it was marked before.
ghost use Rattle.std.specs.Prelude.{◌≡◌, ℕ, ◌-◌, max, false};
ghost use Rattle.set_model.specs.Machine.{key_of};
ghost use Rattle.record_rule.specs.Placing.{placed_view};
ghost use Rattle.record_table.specs.Handles.{view};
ghost use Rattle.record_table.specs.Nodes.{HasStarted, MayPlaceIn};
ghost use Rattle.record_pieces.specs.Events.{placed};
ghost use Rattle.manager.specs.Guards.{IsAtWork, Did};
ghost use Rattle.set_calls.specs.Answers.{Read};
ghost use Rattle.set_calls.specs.Going.{IsSameGuard};
ghost use Rattle.set_calls.specs.Knowing.{IsAnswer};
ghost use Rattle.list_calls.specs.Standing.{rank};
ghost use Rattle.lazy_facts.specs.Lazy.{lazy};
ghost use Rattle.lazy_list.specs.Knowing.{HasSeenAtMark};
ghost use Rattle.lazy_list.specs.Places.{IsRemovalAt, place_of};

use crate::shape::LazyShape;
use alloc_api::Allocator;
use manager::Guard;
use pool::Pool;
use reclaim_api::Scheme;
use record_table::Node;
use set_model::Call;

// Places a removal or a search where its caller's proof says, by the marked node and the key.
fn place_by<'a, R: Scheme, A: Allocator, P: Pool>(
    guard: &mut Guard<'a, LazyShape, R, A, P>,
    _marked: &Node,
    _key: u64,
    call: Call,
)
    ghost position: { ℕ }
    requires at_work { IsAtWork guard.old }
    requires started { HasStarted guard.old.caller.now.pass }
    requires allowed { MayPlaceIn lazy (view guard.old.caller.now.pass) position call false }
    ensures at_work { IsAtWork guard.new }
    ensures same { IsSameGuard guard.old guard.new }
    ensures step { (found : ℕ) × (view guard.new.caller.now.pass ≡ placed_view (view guard.old.caller.now.pass) 0 found position call false) }
    ensures did { Did guard.old (placed call false position) guard.new }
{
    guard.place(call, false);
}

// Places it at the first place that the marked node's key and the sought one allow.
fn place_computed<'a, R: Scheme, A: Allocator, P: Pool>(
    guard: &mut Guard<'a, LazyShape, R, A, P>,
    marked: &Node,
    key: u64,
    call: Call,
)
    requires at_work { IsAtWork guard.old }
    requires started { HasStarted guard.old.caller.now.pass }
    requires allowed { MayPlaceIn lazy (view guard.old.caller.now.pass) (place_of (view guard.old.caller.now.pass) (rank guard.old.caller.now.pass marked.now - 1) key) call false }
    ensures at_work { IsAtWork guard.new }
    ensures same { IsSameGuard guard.old guard.new }
    ensures step { (found : ℕ) × (view guard.new.caller.now.pass ≡ placed_view (view guard.old.caller.now.pass) 0 found (place_of (view guard.old.caller.now.pass) (rank guard.old.caller.now.pass marked.now - 1) key) call false) }
    ensures did { Did guard.old (placed call false (place_of (view guard.old.caller.now.pass) (rank guard.old.caller.now.pass marked.now - 1) key)) guard.new }
{
    place_by(guard, marked, key, call);
}

/// Places a removal or a search of `key`, which a marked node showed to be absent: behind the later of the guard's start
/// and the removal that marked the node.
pub fn place_at_mark<'a, R: Scheme, A: Allocator, P: Pool>(
    guard: &mut Guard<'a, LazyShape, R, A, P>,
    marked: &Node,
    key: u64,
    call: Call,
)
    requires at_work { IsAtWork guard.old }
    requires marked { HasSeenAtMark guard.old.caller.now.pass marked.now key }
    requires call { (key_of call ≡ key) × IsAnswer call false false }
    ensures at_work { IsAtWork guard.new }
    ensures same { IsSameGuard guard.old guard.new }
    ensures tells { Read call false (view guard.old.caller.now.pass) (view guard.new.caller.now.pass) }
    ensures start { (view guard.new.caller.now.pass).own.guard ≡ (view guard.old.caller.now.pass).own.guard }
    ensures seen { (view guard.new.caller.now.pass).seen_updates ≡ (view guard.old.caller.now.pass).seen_updates }
    ensures did { (m : ℕ) × IsRemovalAt (view guard.old.caller.now.pass).seen_updates m (rank guard.old.caller.now.pass marked.now - 1) × Did guard.old (placed call false (max (view guard.old.caller.now.pass).own.guard.start_updates m)) guard.new }
{
    place_computed(guard, marked, key, call);
}
