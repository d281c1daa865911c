// Placing a read among the updates that its pass has noted.
ghost use Rattle.std.specs.Prelude.{◌≡◌, ℕ, true};
ghost use Rattle.record_rule.specs.Placing.{placed_view};
ghost use Rattle.record_table.specs.Handles.{view, is_inside, IsPassOf, IsSamePass};
ghost use Rattle.record_table.specs.Nodes.{HasStarted, MayPlaceIn};

use crate::passes::Pass;
use crate::table::Table;
use record_memory::DRAWN;
use record_rule::{Cover, Shape};
use set_model::Call;
use std::marker::Brand;

impl<S: Shape, R: Cover> Table<S, R> {
    /// Places a read, as of a search or of a refused insertion: from this one load on it stands in the one
    /// history with its call and its reply, behind just so many of the updates that the pass has noted as
    /// `position` says, which its proof chooses. That number is no less than that of the updates when its
    /// guard started, and the sequential set answers so there. The guard started with a load of a link in it.
    pub fn place_read(&self, pass: &mut Pass<S, R>, call: Call, reply: bool)
        ghost position: { ℕ }
        requires pass { IsPassOf self.now pass.old }
        requires inside { is_inside pass.old ≡ true }
        requires started { HasStarted pass.old }
        requires allowed { MayPlaceIn S.facts (view pass.old) position call reply }
        ensures pass { IsSamePass pass.old pass.new }
        ensures placed { (found : ℕ) × (view pass.new ≡ placed_view (view pass.old) 0 found position call reply) }
    {
        self.load::<Brand, _>(pass, DRAWN as usize, &(call, reply));
    }
}
