// The functions of 2GEIBR: an operation announces an interval of epochs, a try to hold compares the epoch with its upper
// end, and each sixteenth retirement scans all intervals.
ghost use Rattle.std.specs.Prelude.{refl};
ghost use Rattle.ibr_facts.proofs.KeepingLaws.{ibr_laws};
ghost use Rattle.reclaim_ibr.specs.LocalParts.{IsLocal};
ghost use Rattle.reclaim_ibr.specs.Running.{Enters, Leaves, Bears, Reaches};
ghost use Rattle.reclaim_ibr.specs.Retiring.{PutsAway};
ghost use Rattle.reclaim_ibr.specs.LocalStays.{local_same};
ghost use Rattle.reclaim_ibr.specs.Adding.{bears_more, reaches_more};

use crate::{Ibr, Interval, announcing, births, reaching, retiring};
use reclaim_api::{Holding, Scheme};
use record_table::{Node, Pass, Shape, Table, TakenOut};
use row_words::{Chain, Freed};

impl Scheme for Ibr {
    const PLACES: u32 = 8;

    ghost PLACES = { 8 };

    type Local = Interval;

    ghost is_local = { IsLocal };

    ghost enters = { Enters };

    ghost leaves = { Leaves };

    ghost bears = { Bears };

    ghost reaches = { Reaches };

    ghost puts_away = { PutsAway };

    fn local(caller: u32, callers: u32) -> Interval {
        Interval {
            caller,
            callers,
            upper: 0,
            births: 0,
            retired: 0,
            bag: Chain::new(),
        }
    }

    fn enter<S: Shape>(
        table: &Table<S, Ibr>,
        pass: &mut Pass<S, Ibr>,
        local: &mut Interval,
        free: &mut Chain,
    ) -> Freed {
        announcing::enter(table, pass, local, free)
    }

    fn leave<S: Shape>(table: &Table<S, Ibr>, pass: &mut Pass<S, Ibr>, local: &mut Interval) {
        announcing::leave(table, pass, local);
    }

    fn birth<S: Shape>(
        table: &Table<S, Ibr>,
        pass: &mut Pass<S, Ibr>,
        local: &mut Interval,
    ) -> u64 {
        births::birth(table, pass, local)
    }

    fn reach<S: Shape>(
        table: &Table<S, Ibr>,
        pass: &mut Pass<S, Ibr>,
        local: &mut Interval,
        place: u32,
        from: Node,
        field: u8,
    ) -> Holding {
        reaching::reach(table, pass, local, place, from, field)
    }

    fn put_away<S: Shape>(
        table: &Table<S, Ibr>,
        pass: &mut Pass<S, Ibr>,
        local: &mut Interval,
        taken: TakenOut,
        free: &mut Chain,
    ) -> Freed {
        retiring::put_away(table, pass, local, taken, free)
    }

    ghost local_stays = { local_same };

    ghost enters_adds = { λ k b f c h. (_, h.steps) };

    ghost leaves_adds = { λ k b c h. (_, h.steps) };

    ghost bears_adds = { bears_more };

    ghost reaches_adds = { reaches_more };

    ghost puts_away_adds = { λ k b r f c h. (_, h.steps) };

    ghost placed = { refl };

    ghost enough = { ibr_laws.enough };
}
