// One caller at play.
ghost use Rattle.std.specs.Prelude.{◌≡◌, ◌+◌, ◌≤◌, ◌++◌, List, length, vec_capacity};
ghost use Rattle.set_model.specs.declared.calls.Reply.{Reply};
ghost use Rattle.set_model.specs.Machine.{key_of};
ghost use Rattle.workload_text.specs.Limits.{AreLawful};
ghost use Rattle.set_api.specs.Turns.{Turn, Turns};

use outside::Gate;
use set_api::{Answer, ConcurrentSet};
use set_model::{Call, Reply};
use std::sync::Wait;

/// A caller of a set, with its number from 0 on and the replies that it was given so far.
#[derive(Drop)]
pub struct Player<C: Drop> {
    pub number: u32,
    pub caller: C,
    pub replies: Vec<Reply>,
}

/// Makes a call, again and again where it may be made again, until it is answered.
fn play_call<W: Wait, S: ConcurrentSet>(
    rt: &W,
    set: &S,
    caller: &mut S::Caller,
    call: Call,
    budget: u32,
) -> Reply
    requires has { S.has set.now caller.old }
    requires key { key_of call ≤ 1099511627773 }
    ensures has { S.has set.now caller.new }
    ensures turn { Turn (S.steps (S.setup set.now)) budget call result (S.view caller.old) (S.view caller.new) }
{
    for _ in rt.forever() {
        match set.play(caller, call, budget) {
            Answer::Done(yes) => return Reply::from(yes),
            Answer::Full { found: _ } => return Reply::Full,
            Answer::Again { hops: _ } => {}
        }
    }
    unreachable!()
}

/// Makes the calls in order, and notes the reply to each behind those to the calls before them. There is
/// room for each reply. The gate is told of each call before and after it, with the caller's number and
/// with the call's among all calls of the caller.
pub fn play_calls<W: Wait, G: Gate, S: ConcurrentSet>(
    rt: &W,
    gate: &G,
    set: &S,
    calls: &[Call],
    budget: u32,
    player: &mut Player<S::Caller>,
)
    requires has { S.has set.now player.old.caller }
    requires keys { AreLawful calls.now }
    requires few_calls { length player.old.replies.items + length calls.now ≤ 1000000 }
    requires room { length player.old.replies.items + length calls.now ≤ vec_capacity player.old.replies }
    ensures has { S.has set.now player.new.caller }
    ensures turns { (replies : List Reply) × (player.new.replies.items ≡ player.old.replies.items ++ replies) × Turns (S.steps (S.setup set.now)) budget calls.now replies (S.view player.old.caller) (S.view player.new.caller) }
    ensures same_number { player.new.number ≡ player.old.number }
    ensures same_capacity { vec_capacity player.old.replies ≤ vec_capacity player.new.replies }
{
    for call in calls {
        let at = player.replies.len() as u32 + 1;
        gate.before(player.number, at);
        let reply = play_call(rt, set, &mut player.caller, *call, budget);
        player.replies.push(reply).unwrap();
        gate.after(player.number, at);
    }
}
