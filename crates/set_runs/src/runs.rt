// A whole run.
ghost use Rattle.std.specs.Prelude.{◌≡◌, ℕ, ◌+◌, ◌≤◌, List, [], length, vec_capacity, IfOk};
ghost use Rattle.workload_text.specs.Limits.{IsWorkload, phase_lines};
ghost use Rattle.set_api.specs.Callers.{AreFreshCallers};
ghost use Rattle.set_runs.specs.Playing.{AtEach, IsAt};
ghost use Rattle.listed.specs.Vectors.{items_of};
ghost use Rattle.set_runs.specs.Runs.{AreAtStart, IsSetRun};

use crate::phases::play_phases;
use crate::players::Player;
use crate::seats::{Seats, leave_all, seat_all};
use crate::totals::{total_counts, with_shelves};
use outside::Gate;
use record_table::Closed;
use set_api::ConcurrentSet;
use set_model::{Counts, OutOfMemory, Reply};
use std::alloc::Global;
use std::sync::Wait;
use std::thread::Threads;
use workload_text::Workload;

/// What a run leaves.
#[derive(Drop)]
pub struct Played {
    /// The table, closed by all callers.
    pub closed: Closed,
    /// How often all callers moved records, and how many records lie where.
    pub counts: Counts,
    /// The replies to each caller, in order of number.
    pub replies: Vec<Vec<Reply>>,
}

// Plays all phases, and hands the players back.
fn play_out<
    R: Threads + Wait + Sync,
    G: Gate + Sync,
    C: Drop + Send,
    S: ConcurrentSet<Caller = C> + Sync,
>(
    rt: &R,
    gate: &G,
    set: &S,
    workload: &Workload,
    budget: u32,
    mut players: Vec<Player<C>>,
) -> Vec<Player<C>>
    requires { AreAtStart S.has set.now S.view (S.setup set.now) S.cover.first workload.now.lists players.items }
    ensures limits { IsWorkload workload.now }
    ensures at { (bounds : List ℕ) × AtEach (λ i p. IsAt S.has set.now workload.now.lists (phase_lines workload.now.lists + 1) S.view (S.steps (S.setup set.now)) budget bounds i (S.view p.caller)) players.items result.items }
{
    play_phases(rt, gate, set, workload, budget, &mut players);
    players
}

/// Plays the workload on the set: phase by phase, and in each phase all callers at the same time. Each
/// caller makes its calls one after another, each within a budget of so many hops and again where it may be
/// made again. The gate is told of each call before and after it. Between two phases all callers meet.
/// Then the set is closed. The run takes no memory.
pub fn play_workload<
    R: Threads + Wait + Sync,
    G: Gate + Sync,
    C: Drop + Send,
    S: ConcurrentSet<Caller = C> + Sync,
>(rt: &R, gate: &G, set: S, workload: &Workload, budget: u32, seats: Seats<C>) -> Played
    requires start { AreAtStart S.has set S.view (S.setup set) S.cover.first workload.now.lists seats.players.items }
    requires callers { (seats.callers.items ≡ []) × (length seats.players.items ≤ vec_capacity seats.callers) }
    requires replies { (seats.replies.items ≡ []) × (length seats.players.items ≤ vec_capacity seats.replies) }
    ensures { IsSetRun S.facts S.cover S.steps budget (S.setup set) workload.now.lists (items_of result.replies.items) result.counts result.closed }
{
    let Seats {
        players,
        mut callers,
        mut replies,
    } = seats;
    let players = play_out(rt, gate, &set, workload, budget, players);
    let totals = total_counts(&set, &players);
    leave_all(players, &mut callers, &mut replies);
    let closed = set.close(callers);
    let counts = with_shelves(totals, &closed);
    Played {
        closed,
        counts,
        replies,
    }
}

/// Plays the workload on a set that was just made, with a caller for each caller of the workload, as
/// `play_workload` does. All memory of the run is taken before the first call is made.
pub fn play_set<
    R: Threads + Wait + Sync,
    G: Gate + Sync,
    C: Drop + Send,
    S: ConcurrentSet<Caller = C> + Sync + Drop,
>(
    alloc: Global,
    rt: &R,
    gate: &G,
    set: S,
    callers: Vec<C>,
    workload: &Workload,
    budget: u32,
) -> Result<Played, OutOfMemory>
    requires count { (S.setup set).callers ≡ length workload.now.lists }
    requires callers { AreFreshCallers (S.has set) S.view (S.setup set) S.cover.first callers.items }
    ensures { IfOk result (λ played. IsSetRun S.facts S.cover S.steps budget (S.setup set) workload.now.lists (items_of played.replies.items) played.counts played.closed) }
{
    let seats = seat_all(alloc, workload, callers)?;
    Ok(play_workload(rt, gate, set, workload, budget, seats))
}
