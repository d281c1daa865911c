// How all callers at play learn what any of them has seen.
ghost use Rattle.std.specs.Prelude.{ℕ, ◌≤◌, All, length};
ghost use Rattle.set_runs.specs.declared.players.Player.{Player};
ghost use Rattle.set_runs.specs.Playing.{AtEach, Stays, Learns, HasMet};

use crate::players::Player;
use set_api::ConcurrentSet;

// Lets the first one learn what each of the others has seen.
fn gather<S: ConcurrentSet>(
    set: &S,
    first: &mut Player<S::Caller>,
    others: &mut [Player<S::Caller>],
)
    requires first { S.has set.now first.old.caller }
    requires others { All (λ player. S.has set.now player.caller) others.old }
    ensures first { Learns S.has set.now S.view first.old first.new }
    ensures others { AtEach (λ i. Stays S.has set.now S.view) others.old others.new }
    ensures met { All (λ player. length (S.view player.caller).front ≤ length (S.view first.new.caller).front) others.new }
{
    for at in 0..others.len() {
        set.meet(&mut others[at].caller, &mut first.caller);
    }
}

// Lets each of the others learn what the first one has seen.
fn spread<S: ConcurrentSet>(
    set: &S,
    first: &mut Player<S::Caller>,
    others: &mut [Player<S::Caller>],
)
    requires first { S.has set.now first.old.caller }
    requires others { All (λ player. S.has set.now player.caller) others.old }
    ensures first { Stays S.has set.now S.view first.old first.new }
    ensures others { AtEach (λ i. Learns S.has set.now S.view) others.old others.new }
    ensures met { All (λ player. length (S.view first.old.caller).front ≤ length (S.view player.caller).front) others.new }
{
    for at in 0..others.len() {
        set.meet(&mut first.caller, &mut others[at].caller);
    }
}

/// Lets each caller learn what any of them has seen: afterwards whatever one of them had seen comes before
/// each later call of each of them.
pub fn meet_all<S: ConcurrentSet>(set: &S, players: &mut [Player<S::Caller>])
    requires { All (λ player. S.has set.now player.caller) players.old }
    ensures { (bound : ℕ) × AtEach (λ i. HasMet S.has set.now S.view bound) players.old players.new }
{
    if let Some((first, others)) = players.split_first_mut() {
        gather(set, first, others);
        spread(set, first, others);
    }
}
