// The functions of hazard pointers: a try to hold names its target between two loads of the link, leaving clears the names, and retiring scans them once the bag is full.
ghost use Rattle.std.specs.Prelude.{refl};
ghost use Rattle.hazard_facts.proofs.PointersLaws.{hazard_laws};
ghost use Rattle.reclaim_api.proofs.Kept.{same_adds};
ghost use Rattle.reclaim_hazard.specs.LocalParts.{IsLocal};
ghost use Rattle.reclaim_hazard.specs.Running.{Enters, Leaves, Bears, Reaches, PutsAway};
ghost use Rattle.reclaim_hazard.specs.LocalStays.{local_same};
ghost use Rattle.reclaim_hazard.specs.Adding.{reaches_more};

use crate::reaching::{answer, generation_of, load_again, same_node, store_own};
use crate::retiring::{keep, scan};
use crate::{Hazard, Retired};
use reclaim_api::{Holding, NONE_FREED, Scheme};
use record_table::{Held, Node, Pass, Shape, Table, TakenOut};
use row_words::{Chain, Freed, MARK};

impl Scheme for Hazard {
    const PLACES: u32 = 3;

    ghost PLACES = { 3 };

    type Local = Retired;

    ghost is_local = { IsLocal };

    ghost enters = { Enters };

    ghost leaves = { Leaves };

    ghost bears = { Bears };

    ghost reaches = { Reaches };

    ghost puts_away = { PutsAway };

    fn local(caller: u32, callers: u32) -> Retired {
        Retired {
            caller,
            callers,
            bag: Chain::new(),
        }
    }

    fn enter<S: Shape>(
        _table: &Table<S, Hazard>,
        pass: &mut Pass<S, Hazard>,
        _local: &mut Retired,
        _free: &mut Chain,
    ) -> Freed {
        pass.begin_guard();
        NONE_FREED
    }

    fn leave<S: Shape>(table: &Table<S, Hazard>, pass: &mut Pass<S, Hazard>, local: &mut Retired) {
        store_own(table, pass, local, 0, 0);
        store_own(table, pass, local, 1, 0);
        store_own(table, pass, local, 2, 0);
        pass.end_guard();
    }

    fn birth<S: Shape>(
        _table: &Table<S, Hazard>,
        _pass: &mut Pass<S, Hazard>,
        _local: &mut Retired,
    ) -> u64 {
        0
    }

    fn reach<S: Shape>(
        table: &Table<S, Hazard>,
        pass: &mut Pass<S, Hazard>,
        local: &mut Retired,
        place: u32,
        from: Node,
        field: u8,
    ) -> Holding {
        let own = generation_of(table, &from);
        let link = table.reach_link(pass, place, same_node(&from), field);
        if link.flags & MARK != 0 {
            return Holding::Marked(link);
        }
        let Some(target) = link.target else {
            return Holding::Null;
        };
        let again = load_again(table, pass, local, place, from, field, target);
        answer(own, again, Held { place, target })
    }

    fn put_away<S: Shape>(
        table: &Table<S, Hazard>,
        pass: &mut Pass<S, Hazard>,
        local: &mut Retired,
        taken: TakenOut,
        free: &mut Chain,
    ) -> Freed {
        keep(table, pass, local, taken);
        if local.bag.count < 2 * (3 * local.callers) {
            return NONE_FREED;
        }
        scan(table, pass, local, free)
    }

    ghost local_stays = { local_same };

    ghost enters_adds = { λ k b f c h. same_adds b c h.0 };

    ghost leaves_adds = { λ k b c h. (_, h.steps) };

    ghost bears_adds = { λ k b n c h. same_adds b c h.1 };

    ghost reaches_adds = { reaches_more };

    ghost puts_away_adds = { λ k b r f c h. (_, h.steps) };

    ghost placed = { refl };

    ghost enough = { hazard_laws.enough };
}
