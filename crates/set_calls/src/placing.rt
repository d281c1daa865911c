// Where a call that changed nothing stands in the one history: behind just as many updates as its caller noted at the load
// that showed its answer.
ghost use Rattle.std.specs.Prelude.{◌≡◌, ℕ};
ghost use Rattle.record_rule.specs.Links.{note_in};
ghost use Rattle.record_rule.specs.Placing.{placed_view};
ghost use Rattle.record_table.specs.Handles.{view};
ghost use Rattle.record_table.specs.Nodes.{HasStarted, MayPlaceIn};
ghost use Rattle.record_pieces.specs.Events.{placed};
ghost use Rattle.manager.specs.Guards.{IsAtWork, Did};
ghost use Rattle.set_calls.specs.Going.{IsSameGuard};

use alloc_api::Allocator;
use manager::Guard;
use pool::Pool;
use reclaim_api::Scheme;
use record_table::{Held, Shape};
use set_model::Call;

/// Places a read behind as many updates as its caller noted last: at a load of a link, at an exchange that was made, or
/// at its guard's start, whichever came last.
pub fn place_seen<'a, S: Shape, R: Scheme, A: Allocator, P: Pool>(
    guard: &mut Guard<'a, S, R, A, P>,
    call: Call,
    reply: bool,
)
    requires at_work { IsAtWork guard.old }
    requires started { HasStarted guard.old.caller.now.pass }
    requires allowed { MayPlaceIn S.facts (view guard.old.caller.now.pass) (view guard.old.caller.now.pass).own.updates_seen call reply }
    ensures at_work { IsAtWork guard.new }
    ensures same { IsSameGuard guard.old guard.new }
    ensures step { (found : ℕ) × (view guard.new.caller.now.pass ≡ placed_view (view guard.old.caller.now.pass) 0 found (view guard.old.caller.now.pass).own.updates_seen call reply) }
    ensures did { Did guard.old (placed call reply (view guard.old.caller.now.pass).own.updates_seen) guard.new }
{
    guard.place(call, reply);
}

// Places a read where its caller's proof says, by a record that is held.
fn place_by<'a, S: Shape, R: Scheme, A: Allocator, P: Pool>(
    guard: &mut Guard<'a, S, R, A, P>,
    _held: &Held,
    call: Call,
    reply: bool,
)
    ghost position: { ℕ }
    requires at_work { IsAtWork guard.old }
    requires started { HasStarted guard.old.caller.now.pass }
    requires allowed { MayPlaceIn S.facts (view guard.old.caller.now.pass) position call reply }
    ensures at_work { IsAtWork guard.new }
    ensures same { IsSameGuard guard.old guard.new }
    ensures step { (found : ℕ) × (view guard.new.caller.now.pass ≡ placed_view (view guard.old.caller.now.pass) 0 found position call reply) }
    ensures did { Did guard.old (placed call reply position) guard.new }
{
    guard.place(call, reply);
}

/// Places a read behind as many updates as its caller noted at the load by which this record was reached, though the
/// guard has loaded links since.
pub fn place_reached<'a, S: Shape, R: Scheme, A: Allocator, P: Pool>(
    guard: &mut Guard<'a, S, R, A, P>,
    held: &Held,
    call: Call,
    reply: bool,
)
    requires at_work { IsAtWork guard.old }
    requires started { HasStarted guard.old.caller.now.pass }
    requires allowed { MayPlaceIn S.facts (view guard.old.caller.now.pass) (note_in (view guard.old.caller.now.pass).own.notes held.now.place).reached_at call reply }
    ensures at_work { IsAtWork guard.new }
    ensures same { IsSameGuard guard.old guard.new }
    ensures step { (found : ℕ) × (view guard.new.caller.now.pass ≡ placed_view (view guard.old.caller.now.pass) 0 found (note_in (view guard.old.caller.now.pass).own.notes held.now.place).reached_at call reply) }
    ensures did { Did guard.old (placed call reply (note_in (view guard.old.caller.now.pass).own.notes held.now.place).reached_at) guard.new }
{
    place_by(guard, held, call, reply);
}
