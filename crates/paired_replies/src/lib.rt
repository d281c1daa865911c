//! Each caller's calls with the replies to them.
//!
//! A run keeps the calls of its callers and the replies to them in two lists of vectors. A report
//! has one list, of what each caller played. Making it of the two takes no memory, so a run that
//! took all of its memory before can't fail behind its last call.
#![tactic(auto)]

ghost use Rattle.std.specs.Prelude.{◌≡◌, ◌≤◌, [], length, map, vec_capacity};
ghost use Rattle.listed.specs.Vectors.{items_of};
ghost use Rattle.paired_replies.specs.Pairs.{calls_of, replies_to};

use listed::Listed;
use report_text::Played;
use set_model::{Call, Reply};

/// Each caller's calls with the replies to them, in order of the callers' numbers. `callers` is empty
/// and has room for all of them, so this takes no memory.
pub fn pair_up(
    lists: Vec<Vec<Call>>,
    replies: Vec<Vec<Reply>>,
    mut callers: Vec<Played>,
) -> Listed<Played>
    requires none { callers.items ≡ [] }
    requires room { length lists.items ≤ vec_capacity callers }
    requires pairs { map length (items_of replies.items) ≡ map length (items_of lists.items) }
    ensures calls { calls_of result ≡ items_of lists.items }
    ensures replies { replies_to result ≡ items_of replies.items }
{
    for (calls, told) in lists.into_iter().zip(replies) {
        let played = Played {
            calls: Listed::of(calls),
            replies: Listed::of(told),
        };
        callers.push(played).unwrap();
    }
    Listed::of(callers)
}

#[cfg(test)]
mod tests;
