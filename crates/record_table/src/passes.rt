// A caller's pass, and how passes are split off and joined.
ghost use Rattle.std.specs.Prelude.{◌≡◌, ◌<◌, []};

use atomic_table::{Join, Seat, Split};
use record_memory::View;
use std::marker::PhantomData;
use std::snapshot::Snapshot;

/// What one caller makes its atomic steps with. It takes no bytes but for the caller's number.
/// Contracts see what it knows as a `View`, of one type for all sets and reclaimers.
#[derive(Drop)]
pub struct Pass<S, R> {
    pub(crate) seat: Seat<(), View>,
    pub(crate) caller: u32,
    // What it knew when its guard began or ended, and whether it is inside one. Clauses alone read these.
    pub(crate) since: Snapshot<Seat<(), View>>,
    pub(crate) inside: Snapshot<bool>,
    pub(crate) marker: PhantomData<(S, R)>,
    pub ghost numbered: { seat.me.0.own.caller ≡ caller },
    pub ghost counted: { seat.me.0.own.caller < seat.me.0.setup.callers },
    pub ghost at_home: { seat.me.1 ≡ [] },
}

impl<S, R> Pass<S, R> {
    ghost use Rattle.std.specs.Prelude.{true, false};
    ghost use Rattle.record_table.specs.Handles.{view, since, is_inside, IsSameSeat};

    /// Its caller's number, from 0.
    pub fn caller(&self) -> u32
        ensures { result ≡ (view self.now).own.caller }
    {
        self.caller
    }

    /// The caller begins a guard. It makes no step: contracts alone see it.
    pub fn begin_guard(&mut self)
        requires outside { is_inside self.old ≡ false }
        ensures seat { IsSameSeat self.old self.new }
        ensures since { since self.new ≡ view self.old }
        ensures inside { is_inside self.new ≡ true }
    {
        self.turn(true);
    }

    /// The caller ends its guard, and holds nothing from then on. It makes no step: contracts alone
    /// see it.
    pub fn end_guard(&mut self)
        requires inside { is_inside self.old ≡ true }
        ensures seat { IsSameSeat self.old self.new }
        ensures since { since self.new ≡ view self.old }
        ensures inside { is_inside self.new ≡ false }
    {
        self.turn(false);
    }

    // What it knows is kept, and whether it is inside a guard from then on.
    fn turn(&mut self, inside: bool)
        ensures seat { IsSameSeat self.old self.new }
        ensures since { since self.new ≡ view self.old }
        ensures inside { is_inside self.new ≡ inside }
    {
        self.since = Snapshot::of(&self.seat);
        self.inside = Snapshot::of(&inside);
    }
}

// A new pass gets the first book that isn't its giver's own.
pub(crate) struct Gives;

impl Split<View> for Gives {
    ghost use Rattle.record_rule.specs.Splits.{split_left, split_right};

    ghost left = { split_left };

    ghost right = { split_right };
}

// A pass carries the other's books behind its own.
pub(crate) struct Takes;

impl Join<View> for Takes {
    ghost use Rattle.record_rule.specs.Splits.{joined, spent};

    ghost both = { joined };

    ghost spent = { spent };
}
