// One phase of all callers.
ghost use Rattle.std.specs.Prelude.{◌≡◌, ℕ, ◌+◌, ◌<◌, ◌≤◌, List, [], All, length};
ghost use Rattle.workload_text.specs.Limits.{IsWorkload, phase_lines};
ghost use Rattle.set_runs.specs.Playing.{AtEach, HasMet, IsReady, HasPlayed, IsAt};

use crate::meeting::meet_all;
use crate::players::{Player, play_calls};
use outside::Gate;
use set_api::ConcurrentSet;
use std::sync::Wait;
use std::thread;
use std::thread::Threads;
use workload_text::Workload;

/// Plays the calls of this caller in the phase.
fn play_own<W: Wait, G: Gate, S: ConcurrentSet>(
    rt: &W,
    gate: &G,
    set: &S,
    workload: &Workload,
    phase: u32,
    budget: u32,
    player: &mut Player<S::Caller>,
)
    requires phase { phase < phase_lines workload.now.lists + 1 }
    requires ready { IsReady S.has set.now workload.now.lists phase player.old }
    ensures { HasPlayed S.has set.now workload.now.lists phase S.view (S.steps (S.setup set.now)) budget player.old player.new }
{
    let calls = workload.calls_in(player.number, phase);
    play_calls(rt, gate, set, calls, budget, player);
}

/// Plays the phase, all callers at the same time.
pub fn play_phase<
    R: Threads + Wait + Sync,
    G: Gate + Sync,
    C: Drop + Send,
    S: ConcurrentSet<Caller = C> + Sync,
>(
    rt: &R,
    gate: &G,
    set: &S,
    workload: &Workload,
    phase: u32,
    budget: u32,
    players: &mut [Player<C>],
)
    requires phase { phase < phase_lines workload.now.lists + 1 }
    requires ready { All (IsReady S.has set.now workload.now.lists phase) players.old }
    ensures { AtEach (λ i. HasPlayed S.has set.now workload.now.lists phase S.view (S.steps (S.setup set.now)) budget) players.old players.new }
{
    let threads = players.len();
    if threads == 0 {
        return;
    }
    thread::for_each_mut(
        rt,
        players,
        threads,
        &|_, player: &mut Player<C>|
            requires { (phase < phase_lines workload.now.lists + 1) × IsReady S.has set.now workload.now.lists phase player.old }
            ensures { HasPlayed S.has set.entry.now workload.entry.now.lists phase S.view (S.steps (S.setup set.entry.now)) budget player.old player.new }
        { play_own(rt, gate, set, workload, phase, budget, player) },
    );
}

// Before each phase but the first all callers meet.
fn begin_phase<S: ConcurrentSet>(set: &S, phase: u32, players: &mut [Player<S::Caller>])
    requires has { All (λ player. S.has set.now player.caller) players.old }
    requires first { phase ≡ 0 → All (λ player. length (S.view player.caller).front ≤ 0) players.old }
    ensures { (bound : ℕ) × AtEach (λ i. HasMet S.has set.now S.view bound) players.old players.new }
{
    if phase > 0 {
        meet_all(set, players);
    }
}

/// Plays all phases, one after another. Between two of them all callers meet.
pub fn play_phases<
    R: Threads + Wait + Sync,
    G: Gate + Sync,
    C: Drop + Send,
    S: ConcurrentSet<Caller = C> + Sync,
>(rt: &R, gate: &G, set: &S, workload: &Workload, budget: u32, players: &mut [Player<C>])
    requires all { length players.old ≡ length workload.now.lists }
    requires none { All (λ player. length (S.view player.caller).front ≤ 0) players.old }
    requires start { AtEach (λ i p. IsAt S.has set.now workload.now.lists 0 S.view (S.steps (S.setup set.now)) budget [] i (S.view p.caller)) players.old players.old }
    ensures limits { IsWorkload workload.now }
    ensures at { (bounds : List ℕ) × AtEach (λ i p. IsAt S.has set.now workload.now.lists (phase_lines workload.now.lists + 1) S.view (S.steps (S.setup set.now)) budget bounds i (S.view p.caller)) players.old players.new }
{
    for phase in 0..workload.phases() + 1 {
        begin_phase(set, phase, players);
        play_phase(rt, gate, set, workload, phase, budget, players);
    }
}
