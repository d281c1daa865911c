// Two callers in turn, by answers worked out by hand.
use crate::playing::{TestList, insert, last_two, remove, search};
use row_words::Generation;
use set_model::{InsertAnswer, LookAnswer};
use std::test::Fail;

#[test]
fn one_sees_what_the_other_did(rt: HostRuntime) -> Result<(), Fail> {
    let (list, callers) = TestList::prepare(rt.alloc(), 3, 2, Generation::new(1).ok_or("one")?, 2)?;
    let (mut zero, mut one) = last_two(&list, callers).ok_or("two callers")?;
    assert_eq!(rt; insert(&list, &mut zero, 1, 10), InsertAnswer::Done(true));
    assert_eq!(rt; insert(&list, &mut one, 1, 10), InsertAnswer::Done(false));
    assert_eq!(rt; remove(&list, &mut one, 1, 10), LookAnswer::Done(true));
    assert_eq!(rt; search(&list, &mut zero, 1, 10), LookAnswer::Done(false));
    assert_eq!(rt; search(&list, &mut zero, 2, 10), LookAnswer::Done(false));
    let counts = list.counts(&one);
    assert_eq!(rt; (counts.drawn, counts.retired, counts.limbo), (0, 1, 1));
    Ok(())
}
