// Hops and records that run out.
use crate::playing::{TestList, insert, last_caller, remove, search};
use row_words::Generation;
use set_model::{InsertAnswer, LookAnswer};
use std::test::Fail;

#[test]
fn says_again_at_the_end_of_its_budget(rt: HostRuntime) -> Result<(), Fail> {
    let (list, mut callers) = TestList::prepare(
        rt.alloc(),
        4,
        1,
        Generation::new(1).ok_or("one")?,
        1,
    )?;
    let mut caller = last_caller(&list, &mut callers).ok_or("a caller")?;
    assert_eq!(rt; insert(&list, &mut caller, 1, 10), InsertAnswer::Done(true));
    assert_eq!(rt; insert(&list, &mut caller, 2, 10), InsertAnswer::Done(true));
    assert_eq!(rt;
        search(&list, &mut caller, 2, 1),
        LookAnswer::Again { hops: 1 }
    );
    assert_eq!(rt; search(&list, &mut caller, 2, 2), LookAnswer::Done(true));
    assert_eq!(rt;
        insert(&list, &mut caller, 3, 2),
        InsertAnswer::Again { hops: 2 }
    );
    assert_eq!(rt;
        insert(&list, &mut caller, 3, 0),
        InsertAnswer::Again { hops: 0 }
    );
    assert_eq!(rt; insert(&list, &mut caller, 3, 3), InsertAnswer::Done(true));
    Ok(())
}

#[test]
fn is_full_where_no_record_is_left(rt: HostRuntime) -> Result<(), Fail> {
    let (list, mut callers) = TestList::prepare(
        rt.alloc(),
        2,
        1,
        Generation::new(1).ok_or("one")?,
        1,
    )?;
    let mut caller = last_caller(&list, &mut callers).ok_or("a caller")?;
    assert_eq!(rt; insert(&list, &mut caller, 1, 10), InsertAnswer::Done(true));
    assert_eq!(rt; remove(&list, &mut caller, 1, 10), LookAnswer::Done(true));
    assert_eq!(rt;
        insert(&list, &mut caller, 2, 10),
        InsertAnswer::Full { found: 2 }
    );
    assert_eq!(rt; search(&list, &mut caller, 2, 10), LookAnswer::Done(false));
    let counts = list.counts(&caller);
    assert_eq!(rt;
        (counts.drawn, counts.retired, counts.limbo, counts.spare),
        (1, 1, 1, 0)
    );
    Ok(())
}
