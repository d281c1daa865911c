// What a caller's calls added and took away, by the replies that they got.
ghost use Rattle.std.specs.Prelude.{◌≡◌, ◌+◌, ◌^◌, ◌<◌, length};
ghost use Rattle.std.specs.List.{zip};
ghost use Rattle.key_sums.specs.Tallies.{is_addition, is_removal, key_if, one_if, IsTallyOf};

use crate::tallies::Tally;
use set_model::{Call, Reply};

// The tally with one more call.
fn with_answer(tally: Tally, call: Call, reply: Reply) -> Tally
    requires counts { (tally.added < 2 ^ 63) × (tally.removed < 2 ^ 63) }
    requires sums { (tally.added_sum < 2 ^ 127) × (tally.removed_sum < 2 ^ 127) }
    ensures added { result.added ≡ tally.added + one_if (is_addition (call, reply)) }
    ensures removed { result.removed ≡ tally.removed + one_if (is_removal (call, reply)) }
    ensures added_sum { result.added_sum ≡ tally.added_sum + key_if is_addition (call, reply) }
    ensures removed_sum { result.removed_sum ≡ tally.removed_sum + key_if is_removal (call, reply) }
    ensures small { (result.added_sum < tally.added_sum + 2 ^ 64) × (result.removed_sum < tally.removed_sum + 2 ^ 64) }
{
    match (call, reply) {
        (Call::Insert(key), Reply::Yes) => Tally {
            added: tally.added + 1,
            added_sum: tally.added_sum + u128::from(key),
            ..tally
        },
        (Call::Remove(key), Reply::Yes) => Tally {
            removed: tally.removed + 1,
            removed_sum: tally.removed_sum + u128::from(key),
            ..tally
        },
        _ => tally,
    }
}

/// What the calls added and took away, where each got the reply at its place in `replies`, which is as long.
/// Only what was answered `Yes` counts, and searches never do. Over all callers of a set that began empty,
/// what was added less what was taken away is there in the end.
pub fn tally(calls: &[Call], replies: &[Reply]) -> Tally
    requires { length replies.now ≡ length calls.now }
    ensures tally { IsTallyOf result (zip calls.now replies.now) }
{
    let mut tally = Tally {
        added: 0,
        removed: 0,
        added_sum: 0,
        removed_sum: 0,
    };
    for (call, reply) in calls.iter().zip(replies) {
        tally = with_answer(tally, *call, *reply);
    }
    tally
}
