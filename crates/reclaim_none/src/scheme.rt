// The functions of no reclamation: a try to hold is one load, and retiring one store.
ghost use Rattle.std.specs.Prelude.{◌≡◌, refl, ◌++◌, []};
ghost use Rattle.record_memory.specs.declared.books.Book.{Book};
ghost use Rattle.cover_facts.proofs.Frozen.{none_begins};
ghost use Rattle.cover_facts.proofs.KeepingLaws.{none_laws};
ghost use Rattle.reclaim_api.proofs.Kept.{same_adds};
ghost use Rattle.reclaim_api.specs.LinkLoads.{ReachesByLoad};
ghost use Rattle.reclaim_none.specs.Running.{Enters, Leaves, Bears, PutsAway};
ghost use Rattle.reclaim_none.specs.Starting.{IsLocal, starting_still, starting_holds};

use crate::NoReclaim;
use reclaim_api::{Follows, Holding, NONE_FREED, Scheme};
use record_table::{Held, Node, Pass, Shape, Table, TakenOut};
use row_words::{Chain, Freed, MARK};

impl Scheme for NoReclaim {
    const PLACES: u32 = 8;

    ghost PLACES = { 8 };

    type Local = ();

    ghost is_local = { IsLocal };

    ghost enters = { Enters };

    ghost leaves = { Leaves };

    ghost bears = { Bears };

    ghost reaches = { ReachesByLoad };

    ghost puts_away = { PutsAway };

    fn local(_caller: u32, _callers: u32) {}

    fn enter<S: Shape>(
        _table: &Table<S, NoReclaim>,
        pass: &mut Pass<S, NoReclaim>,
        _local: &mut (),
        _free: &mut Chain,
    ) -> Freed {
        pass.begin_guard();
        NONE_FREED
    }

    fn leave<S: Shape>(
        _table: &Table<S, NoReclaim>,
        pass: &mut Pass<S, NoReclaim>,
        _local: &mut (),
    ) {
        pass.end_guard();
    }

    fn birth<S: Shape>(
        _table: &Table<S, NoReclaim>,
        _pass: &mut Pass<S, NoReclaim>,
        _local: &mut (),
    ) -> u64 {
        0
    }

    fn reach<S: Shape>(
        table: &Table<S, NoReclaim>,
        pass: &mut Pass<S, NoReclaim>,
        _local: &mut (),
        place: u32,
        from: Node,
        field: u8,
    ) -> Holding {
        let link = table.reach_link(pass, place, from, field);
        if link.flags & MARK != 0 {
            return Holding::Marked(link);
        }
        match link.target {
            Some(target) => Holding::Held(Held { place, target }),
            None => Holding::Null,
        }
    }

    fn put_away<S: Shape>(
        table: &Table<S, NoReclaim>,
        pass: &mut Pass<S, NoReclaim>,
        _local: &mut (),
        taken: TakenOut,
        _free: &mut Chain,
    ) -> Freed {
        table.put_row(pass, taken, 0);
        NONE_FREED
    }

    ghost local_stays = { λ l inside s v w same h. starting_still inside s v w same h };

    ghost enters_adds = { λ k b f c h. same_adds b c h.0 };

    ghost leaves_adds = { λ k b c h. same_adds b c h };

    ghost bears_adds = { λ k b n c h. same_adds b c h.1 };

    ghost reaches_adds = { λ k place from field b h c r. (_, r.steps) };

    ghost puts_away_adds = { λ k b r f c h. (_, h.steps) };

    ghost placed = { refl };

    ghost enough = { none_laws.enough };
}

impl Follows for NoReclaim {
    ghost may_follow = { λ l s v q h small. small };

    ghost has_started = { λ l s v h off. none_begins off };

    ghost starts_behind = { λ l s v h started. h.behind.1 started };

    ghost local_holds = { λ l s v place t h. starting_holds s v place t h };
}
