// How one caller learns what another one has seen.
ghost use Rattle.std.specs.Prelude.{◌≡◌, ◌⊎◌};
ghost use Rattle.record_rule.specs.World.{StartsWith};
ghost use Rattle.record_table.specs.Handles.{view, IsPassOf, IsSamePass};

use record_table::{Cover, Pass, Shape, Table};

/// Lets the caller of `into` learn what the caller of `from` has seen: afterwards the front of `into`
/// begins with both old fronts, and is the longer one. So whatever `from` had seen before comes before
/// each later call of `into`. Nothing else that the two passes know changes.
///
/// Both passes are of this table. The call takes no memory, waits for nobody, and makes three loads,
/// which stand in no caller's list of steps.
pub fn meet<S: Shape, R: Cover>(table: &Table<S, R>, from: &mut Pass<S, R>, into: &mut Pass<S, R>)
    requires from { IsPassOf table.now from.old }
    requires into { IsPassOf table.now into.old }
    ensures from { IsSamePass from.old from.new }
    ensures into { IsSamePass into.old into.new }
    ensures unchanged { view from.new ≡ view from.old }
    ensures own { StartsWith (view into.new).front (view into.old).front }
    ensures met { StartsWith (view into.new).front (view from.old).front }
    ensures longer { ((view into.new).front ≡ (view into.old).front) ⊎ ((view into.new).front ≡ (view from.old).front) }
    ensures rest { view into.new ≡ record (view into.old) { front = (view into.new).front } }
{
    let front = table.send_front(from);
    table.take_front(into, front);
}
