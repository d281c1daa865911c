// The functions of DEBRA: entering looks at one announcement, a try to hold is one load, and retiring stores the last reading.
ghost use Rattle.std.specs.Prelude.{refl};
ghost use Rattle.debra_facts.proofs.DebraLaws.{debra_laws};
ghost use Rattle.reclaim_api.specs.LinkLoads.{ReachesByLoad};
ghost use Rattle.reclaim_api.proofs.Kept.{same_adds};
ghost use Rattle.reclaim_debra.specs.LocalParts.{IsLocal};
ghost use Rattle.reclaim_debra.specs.Running.{Enters, Leaves, Bears, PutsAway};
ghost use Rattle.reclaim_debra.specs.Adding.{enters_more};
ghost use Rattle.reclaim_debra.specs.LocalStays.{local_same, local_holds};

use crate::entering::{announce, read_epoch, scan, store_own};
use crate::{Bags, Debra};
use reclaim_api::{Follows, Holding, NONE_FREED, Scheme, put_first};
use record_table::{Held, Node, Pass, Shape, Table, TakenOut};
use row_words::{Chain, Freed, MARK};

impl Scheme for Debra {
    const PLACES: u32 = 8;

    ghost PLACES = { 8 };

    type Local = Bags;

    ghost is_local = { IsLocal };

    ghost enters = { Enters };

    ghost leaves = { Leaves };

    ghost bears = { Bears };

    ghost reaches = { ReachesByLoad };

    ghost puts_away = { PutsAway };

    fn local(_caller: u32, _callers: u32) -> Bags {
        Bags {
            reading: 1,
            place: 0,
            current: Chain::new(),
            second: Chain::new(),
            third: Chain::new(),
        }
    }

    fn enter<S: Shape>(
        table: &Table<S, Debra>,
        pass: &mut Pass<S, Debra>,
        local: &mut Bags,
        free: &mut Chain,
    ) -> Freed {
        pass.begin_guard();
        let freed = read_epoch(table, pass, local, free);
        scan(table, pass, local);
        announce(table, pass, local);
        freed
    }

    fn leave<S: Shape>(table: &Table<S, Debra>, pass: &mut Pass<S, Debra>, local: &mut Bags) {
        store_own(table, pass, 2 * local.reading);
        pass.end_guard();
    }

    fn birth<S: Shape>(
        _table: &Table<S, Debra>,
        _pass: &mut Pass<S, Debra>,
        _local: &mut Bags,
    ) -> u64 {
        0
    }

    fn reach<S: Shape>(
        table: &Table<S, Debra>,
        pass: &mut Pass<S, Debra>,
        _local: &mut Bags,
        place: u32,
        from: Node,
        field: u8,
    ) -> Holding {
        let link = table.reach_link(pass, place, from, field);
        if link.flags & MARK != 0 {
            return Holding::Marked(link);
        }
        match link.target {
            Some(target) => Holding::Held(Held { place, target }),
            None => Holding::Null,
        }
    }

    fn put_away<S: Shape>(
        table: &Table<S, Debra>,
        pass: &mut Pass<S, Debra>,
        local: &mut Bags,
        taken: TakenOut,
        _free: &mut Chain,
    ) -> Freed {
        let retired = table.put_row(pass, taken, local.reading);
        // A reference is in range, so its record has a row.
        let _index = retired.index;
        put_first(table, pass, &mut local.current, retired);
        NONE_FREED
    }

    ghost local_stays = { local_same };

    ghost enters_adds = { enters_more };

    ghost leaves_adds = { λ k b c h. (_, h.steps) };

    ghost bears_adds = { λ k b n c h. same_adds b c h.1 };

    ghost reaches_adds = { λ k place from field b h c r. (_, r.steps) };

    ghost puts_away_adds = { λ k b r f c h. (_, h.steps) };

    ghost placed = { refl };

    ghost enough = { debra_laws.enough };
}

impl Follows for Debra {
    ghost may_follow = { λ l s v q h small. (h.guarded.active, small) };

    ghost has_started = { λ l s v h off. h.guarded.started };

    ghost starts_behind = { λ l s v h started. h.guarded.front };

    ghost local_holds = { local_holds };
}
