// Callers with what they called and were told, and what a run keeps of them.
ghost use Rattle.std.specs.Prelude.{◌≡◌, IfOk, length, map};
ghost use Rattle.listed.specs.Vectors.{items_of};

use super::*;
use std::alloc::{AllocError, Global};
use std::test::Fail;

/// The calls of each caller, and the replies to each.
type Lists = (Vec<Vec<Call>>, Vec<Vec<Reply>>);

/// No callers, one without calls, and three.
const CASES: [&[&[(Call, Reply)]]; 3] = [
    &[],
    &[&[]],
    &[
        &[(Call::Insert(5), Reply::Yes), (Call::Insert(6), Reply::No)],
        &[],
        &[(Call::Search(5), Reply::Full)],
    ],
];

/// The lists that a run keeps of these callers.
fn lists_of(alloc: Global, callers: &[&[(Call, Reply)]]) -> Result<Lists, AllocError>
    ensures count { IfOk result (λ made. length made.0.items ≡ length callers.now) }
    ensures pairs { IfOk result (λ made. map length (items_of made.1.items) ≡ map length (items_of made.0.items)) }
{
    let mut lists = Vec::new(alloc);
    let mut replies = Vec::new(alloc);
    for own in callers {
        lists.push(own.iter().map(|answered| answered.0).collect(alloc)?)?;
        replies.push(own.iter().map(|answered| answered.1).collect(alloc)?)?;
    }
    Ok((lists, replies))
}

#[test]
fn each_caller_has_its_replies(rt: HostRuntime) -> Result<(), Fail> {
    for case in CASES {
        let (lists, replies) = lists_of(rt.alloc(), case)?;
        let room = Vec::with_capacity(rt.alloc(), case.len())?;
        let callers = pair_up(lists, replies, room);
        let callers = callers.as_slice();
        assert_eq!(rt; callers.len(), case.len());
        for (played, own) in callers.iter().zip(case) {
            assert_eq!(rt; played.calls.as_slice().len(), own.len());
            let answered = played
                .calls
                .as_slice()
                .iter()
                .zip(played.replies.as_slice());
            for ((call, reply), expected) in answered.zip(*own) {
                assert_eq!(rt; (*call, *reply), *expected);
            }
        }
    }
    Ok(())
}
