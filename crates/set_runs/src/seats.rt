// The memory of a run, and what becomes of it when all calls are answered.
ghost use Rattle.std.specs.Prelude.{◌≡◌, ◌≤◌, [], length, map, vec_capacity, IfOk};
ghost use Rattle.set_runs.specs.Playing.{AreSeated};

use crate::players::Player;
use set_model::{OutOfMemory, Reply};
use std::alloc::Global;
use workload_text::Workload;

/// All memory of a run: the callers at play, each with room for the replies to all its calls, and room for
/// what they hand back.
#[derive(Drop)]
pub struct Seats<C: Drop> {
    pub(crate) players: Vec<Player<C>>,
    pub(crate) callers: Vec<C>,
    pub(crate) replies: Vec<Vec<Reply>>,
}

// A player for each caller, in order of number.
fn seat_players<C: Drop>(
    alloc: Global,
    workload: &Workload,
    callers: Vec<C>,
) -> Result<Vec<Player<C>>, OutOfMemory>
    requires { length callers.items ≡ length workload.now.lists }
    ensures { IfOk result (λ players. AreSeated workload.now.lists callers.items players.items) }
{
    let mut players = Vec::with_capacity(alloc, workload.callers() as usize)?;
    for caller in callers {
        let number = players.len() as u32;
        let replies = Vec::with_capacity(alloc, workload.calls_of(number).len())?;
        players.push(Player {
            number,
            caller,
            replies,
        })?;
    }
    Ok(players)
}

/// Takes all memory that a run of the workload needs, once its callers are made. There is one for each
/// caller of the workload, in order of number.
pub fn seat_all<C: Drop>(
    alloc: Global,
    workload: &Workload,
    callers: Vec<C>,
) -> Result<Seats<C>, OutOfMemory>
    requires { length callers.items ≡ length workload.now.lists }
    ensures players { IfOk result (λ seats. AreSeated workload.now.lists callers.items seats.players.items) }
    ensures callers { IfOk result (λ seats. (seats.callers.items ≡ []) × (length seats.players.items ≤ vec_capacity seats.callers)) }
    ensures replies { IfOk result (λ seats. (seats.replies.items ≡ []) × (length seats.players.items ≤ vec_capacity seats.replies)) }
{
    let players = seat_players(alloc, workload, callers)?;
    let callers = Vec::with_capacity(alloc, players.len())?;
    let replies = Vec::with_capacity(alloc, players.len())?;
    Ok(Seats {
        players,
        callers,
        replies,
    })
}

/// Takes the players apart, into what they were: the callers, and the replies to each. There is room for
/// both.
pub(crate) fn leave_all<C: Drop>(
    players: Vec<Player<C>>,
    callers: &mut Vec<C>,
    replies: &mut Vec<Vec<Reply>>,
)
    requires callers { (callers.old.items ≡ []) × (length players.items ≤ vec_capacity callers.old) }
    requires replies { (replies.old.items ≡ []) × (length players.items ≤ vec_capacity replies.old) }
    ensures callers { callers.new.items ≡ map (λ player. player.caller) players.items }
    ensures replies { replies.new.items ≡ map (λ player. player.replies) players.items }
{
    for player in players {
        let Player {
            number: _,
            caller,
            replies: own,
        } = player;
        callers.push(caller).unwrap();
        replies.push(own).unwrap();
    }
}
