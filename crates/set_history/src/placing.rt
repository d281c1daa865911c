// A read takes its place among the updates.
ghost use Rattle.std.specs.Prelude.{◌≡◌, ℕ, true};
ghost use Rattle.record_rule.specs.Placing.{placed_view};
ghost use Rattle.record_table.specs.Handles.{view, is_inside, IsPassOf, IsSamePass};
ghost use Rattle.record_table.specs.Nodes.{HasStarted, MayPlaceIn};

use record_table::{Cover, Pass, Shape, Table};
use set_model::Call;

/// Enters a call that was answered and changed nothing, as a search or a refused insertion, into the one
/// history: from this one load on, the placing load, it stands there with its reply as a read behind just
/// so many of the updates as `position` says. The caller's proof chooses that number, as that of the updates
/// at the load which showed the answer: no fewer than when the guard started, with a load of a link, and no
/// more than the call's last load of a link saw. It is no earlier than the
/// pass's front, so it stands behind each call of the same caller before, and the sequential set answers so
/// there. From then on the front has at least as many updates. There is no refusal.
pub fn place<S: Shape, R: Cover>(
    table: &Table<S, R>,
    pass: &mut Pass<S, R>,
    call: Call,
    reply: bool,
)
    ghost position: { ℕ }
    requires pass { IsPassOf table.now pass.old }
    requires inside { is_inside pass.old ≡ true }
    requires started { HasStarted pass.old }
    requires allowed { MayPlaceIn S.facts (view pass.old) position call reply }
    ensures pass { IsSamePass pass.old pass.new }
    ensures placed { (found : ℕ) × (view pass.new ≡ placed_view (view pass.old) 0 found position call reply) }
{
    table.place_read(pass, call, reply);
}
