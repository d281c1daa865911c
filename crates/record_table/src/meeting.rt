// How the front of one pass reaches another.
ghost use Rattle.std.specs.Prelude.{◌≡◌, []};
ghost use Rattle.record_rule.specs.Meetings.{message, heard};

use crate::passes::Pass;
use crate::table::Table;
use atomic_table::{Join, Seat, Split};
use record_memory::View;
use record_rule::{Cover, Shape};

/// The front of a pass, on its way to another pass of the same table. It takes no bytes.
#[derive(Drop)]
pub struct Front {
    seat: Seat<(), View>,
    pub ghost at_home: { seat.me.1 ≡ [] },
}

// A pass stays as it is, and a message has its front.
pub(crate) struct Notes;

impl Split<View> for Notes {
    ghost left = { λ v. v };

    ghost right = { λ v. message v.front };
}

// A pass takes up the front of a message.
pub(crate) struct Hears;

impl Join<View> for Hears {
    ghost use Rattle.record_rule.specs.Splits.{spent};

    ghost both = { λ v w. heard v w.front };

    ghost spent = { spent };
}

impl<S: Shape, R: Cover> Table<S, R> {
    ghost use Rattle.std.specs.Prelude.{◌≡◌};
    ghost use Rattle.record_rule.specs.Meetings.{HasMet};
    ghost use Rattle.record_table.specs.Handles.{view, IsPassOf, IsSamePass};
    ghost use Rattle.record_table.specs.Meeting.{updates_in, IsFrontOf};

    /// Sends the front of a pass to another one, which takes it up. What the pass knows stays as it is. The
    /// split makes one load, which stands in no list of steps.
    pub fn send_front(&self, pass: &mut Pass<S, R>) -> Front
        requires pass { IsPassOf self.now pass.old }
        ensures pass { IsSamePass pass.old pass.new }
        ensures same { view pass.new ≡ view pass.old }
        ensures table { IsFrontOf self.now result }
        ensures updates { updates_in result ≡ (view pass.old).front }
    {
        Front {
            seat: self.split::<Notes>(&mut pass.seat),
        }
    }

    /// Takes up a front that another pass of this table sent. Of the two fronts one begins the
    /// other, and the pass keeps the longer one. Nothing else that it knows changes. The join and a
    /// look behind it make one load each, which stand in no list of steps.
    pub fn take_front(&self, pass: &mut Pass<S, R>, front: Front)
        requires pass { IsPassOf self.now pass.old }
        requires front { IsFrontOf self.now front }
        ensures pass { IsSamePass pass.old pass.new }
        ensures met { HasMet (view pass.old) (updates_in front) (view pass.new) }
    {
        let Front { seat } = front;
        self.join::<Hears>(&mut pass.seat, seat);
        self.look(&mut pass.seat);
    }
}
