// A try to hold: the link is loaded, and then the epoch, which is compared with the upper end.
ghost use Rattle.std.specs.Prelude.{◌≡◌, ◌<◌};
ghost use Rattle.record_rule.specs.Links.{near_of};
ghost use Rattle.record_table.specs.Handles.{setup_of, view, IsPassOf, IsSamePass};
ghost use Rattle.record_table.specs.Nodes.{origin, HoldsNode};
ghost use Rattle.reclaim_api.specs.Guarding.{IsInside};
ghost use Rattle.reclaim_api.specs.Frames.{LeavesRecords};
ghost use Rattle.reclaim_api.specs.Locals.{IsLocalOf};
ghost use Rattle.reclaim_api.specs.Holds.{IsElsewhere, HasReached, KeepsElse};
ghost use Rattle.reclaim_ibr.specs.LocalParts.{IsLocal};
ghost use Rattle.reclaim_ibr.specs.Running.{Reaches};

use crate::announcing::raise;
use crate::epochs::load_epoch;
use crate::{Ibr, Interval};
use reclaim_api::Holding;
use record_table::{Held, Node, Pass, Shape, Table};
use row_words::MARK;

// Tries to hold, at `place`, what the link of `from` leads to.
pub(crate) fn reach<S: Shape>(
    table: &Table<S, Ibr>,
    pass: &mut Pass<S, Ibr>,
    local: &mut Interval,
    place: u32,
    from: Node,
    field: u8,
) -> Holding
    requires pass { IsPassOf table.now pass.old }
    requires inside { IsInside pass.old }
    requires local { IsLocalOf IsLocal local.old pass.old }
    requires place { place < 8 }
    requires from { HoldsNode pass.old from }
    requires elsewhere { IsElsewhere (origin from) place }
    requires field { field ≡ 3 }
    requires link { S.facts.may_hold (near_of (view pass.old) (origin from)) 3 }
    ensures pass { IsSamePass pass.old pass.new }
    ensures inside { IsInside pass.new }
    ensures local { IsLocalOf IsLocal local.new pass.new }
    ensures rest { LeavesRecords (view pass.old) (view pass.new) }
    ensures reached { HasReached S.facts place (origin from) pass.old result pass.new }
    ensures keeps { KeepsElse place pass.old pass.new }
    ensures does { Reaches (setup_of table.now) place from field (view pass.old).own result (view pass.new).own }
{
    let link = table.reach_link(pass, place, from, field);
    if link.flags & MARK != 0 {
        return Holding::Marked(link);
    }
    let Some(target) = link.target else {
        return Holding::Null;
    };
    let epoch = load_epoch(table, pass);
    if epoch == local.upper {
        return Holding::Held(Held { place, target });
    }
    raise(table, pass, local, epoch);
    Holding::Moved { found: epoch }
}
