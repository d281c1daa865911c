// One key by hand, and the two ends of the keys.
use crate::{Call, PlainSet, Reply, legal_run, updates_take_turns};
use std::test::Fail;

const CALLS: [Call; 6] = [
    Call::Insert(5),
    Call::Insert(5),
    Call::Search(5),
    Call::Remove(5),
    Call::Remove(5),
    Call::Search(5),
];

const REPLIES: [Reply; 6] = [
    Reply::Yes,
    Reply::No,
    Reply::Yes,
    Reply::Yes,
    Reply::No,
    Reply::No,
];

#[test]
fn plain_set(rt: HostRuntime) -> Result<(), Fail> {
    let mut set = PlainSet::with_room(rt.alloc(), 2)?;
    for (call, reply) in CALLS.iter().zip(&REPLIES) {
        assert!(rt; set.len() < 2);
        assert_eq!(rt; Reply::from(set.apply(*call)), *reply, "at {call:?}");
    }
    assert!(rt; set.is_empty());
    assert!(rt; set.apply(Call::Insert(4294967295)));
    assert!(rt; set.len() < 2);
    assert!(rt; set.apply(Call::Insert(0)));
    assert_eq!(rt; set.len(), 2);
    assert_eq!(rt; set.sum(), 4294967295);
    assert!(rt; set.apply(Call::Search(0)));
    Ok(())
}

#[test]
fn legal_runs(rt: HostRuntime) -> Result<(), Fail> {
    assert!(rt; legal_run(rt.alloc(), &CALLS, &REPLIES)?);
    let mut wrong = REPLIES;
    wrong[0] = Reply::No;
    assert!(rt; !legal_run(rt.alloc(), &CALLS, &wrong)?);

    // An insertion that was answered `Full` added nothing.
    let calls = [Call::Insert(0), Call::Search(0), Call::Insert(0)];
    let full = [Reply::Full, Reply::No, Reply::Yes];
    assert!(rt; legal_run(rt.alloc(), &calls, &full)?);
    assert!(rt; !legal_run(rt.alloc(), &calls, &[Reply::Full, Reply::Yes, Reply::Yes])?);
    assert!(rt; legal_run(rt.alloc(), &[], &[])?);
    updates_take_turns();
    Ok(())
}
