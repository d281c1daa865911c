use crate::closing::take_last;
use crate::drawing::draw_aside;
use crate::looks::{look_at_cursor, look_at_drawn, look_at_shelf};
use crate::opening::open;
use crate::types::MichaelShape;
use alloc_api::NoRecord;
use alloc_bump::Bump;
use alloc_once::Once;
use reclaim_none::NoReclaim;
use record_table::prepare;
use row_words::{Generation, Ref};
use set_model::AllocatorName;
use std::test::Fail;

#[test]
fn sets_every_record_aside(rt: HostRuntime) -> Result<(), Fail> {
    let first = Generation::new(7).ok_or("a generation")?;
    let (table, mut passes) = open(rt.alloc(), 4, 1, first, 2)?;
    let mut pass = take_last(&table, &mut passes).ok_or("a pass")?;
    let a = draw_aside::<Bump>(&table, &mut pass, None);
    let b = draw_aside::<Bump>(&table, &mut pass, a.ok());
    let none = draw_aside::<Bump>(&table, &mut pass, None);
    assert_eq!(rt; a, Ok(Ref::new(3, first)));
    assert_eq!(rt; b, Ok(Ref::new(4, first)));
    assert_eq!(rt; none, Err(NoRecord { found: 4 }));
    let closed = table.close_last(pass);
    let words = closed.words();
    let own = 7u64 << 44;
    // Nothing was added at the call that found no record.
    assert_eq!(rt; words[0], 4);
    // The third record's chain word ends the chain, and the fourth's leads to the third.
    assert_eq!(rt; words[25 + 16], own);
    assert_eq!(rt; words[25 + 17], own);
    assert_eq!(rt; words[25 + 18], own);
    assert_eq!(rt; words[25 + 24], own);
    assert_eq!(rt; words[25 + 25], own + (7 << 20) + 3);
    Ok(())
}

#[test]
fn two_callers_draw_in_turn(rt: HostRuntime) -> Result<(), Fail> {
    let first = Generation::new(1).ok_or("a generation")?;
    let (table, mut passes) = open(rt.alloc(), 4, 2, first, 1)?;
    let mut second = take_last(&table, &mut passes).ok_or("a pass")?;
    let mut pass = take_last(&table, &mut passes).ok_or("a pass")?;
    let a = draw_aside::<Bump>(&table, &mut pass, None);
    let b = draw_aside::<Bump>(&table, &mut second, None);
    let c = draw_aside::<Bump>(&table, &mut pass, a.ok());
    let d = draw_aside::<Bump>(&table, &mut second, b.ok());
    let e = draw_aside::<Bump>(&table, &mut pass, None);
    assert_eq!(rt; a, Ok(Ref::new(2, first)));
    assert_eq!(rt; b, Ok(Ref::new(3, first)));
    assert_eq!(rt; c, Ok(Ref::new(4, first)));
    assert_eq!(rt; d, Err(NoRecord { found: 4 }));
    assert_eq!(rt; e, Err(NoRecord { found: 4 }));
    table.absorb(&mut pass, second);
    let closed = table.close_last(pass);
    assert_eq!(rt; closed.words()[0], 4);
    assert_eq!(rt; closed.callers(), 2);
    Ok(())
}

#[test]
fn two_callers_draw_from_ranges(rt: HostRuntime) -> Result<(), Fail> {
    let first = Generation::new(1).ok_or("a generation")?;
    let (table, mut passes) = prepare::<MichaelShape, NoReclaim>(
        rt.alloc(),
        6,
        2,
        first,
        1,
        AllocatorName::Once,
    )?;
    let mut second = take_last(&table, &mut passes).ok_or("a pass")?;
    let mut pass = take_last(&table, &mut passes).ok_or("a pass")?;
    let a = draw_aside::<Once>(&table, &mut pass, None);
    let b = draw_aside::<Once>(&table, &mut second, None);
    let c = draw_aside::<Once>(&table, &mut pass, a.ok());
    let none = draw_aside::<Once>(&table, &mut pass, None);
    let d = draw_aside::<Once>(&table, &mut second, b.ok());
    assert_eq!(rt; a, Ok(Ref::new(2, first)));
    assert_eq!(rt; b, Ok(Ref::new(4, first)));
    assert_eq!(rt; c, Ok(Ref::new(3, first)));
    assert_eq!(rt; none, Err(NoRecord { found: 2 }));
    assert_eq!(rt; d, Ok(Ref::new(5, first)));
    table.absorb(&mut pass, second);
    let closed = table.close_last(pass);
    // The shared count stays at the number of roots, and each cursor counts its caller's records.
    assert_eq!(rt; closed.words()[0], 1);
    assert_eq!(rt; closed.words()[28], 2);
    assert_eq!(rt; closed.words()[29], 2);
    Ok(())
}

#[test]
fn looks_at_words_that_nobody_changes(rt: HostRuntime) -> Result<(), Fail> {
    let first = Generation::new(1).ok_or("a generation")?;
    for allocator in [AllocatorName::Bump, AllocatorName::Once] {
        let (table, mut passes) = prepare::<MichaelShape, NoReclaim>(
            rt.alloc(),
            4,
            1,
            first,
            2,
            allocator,
        )?;
        let mut pass = take_last(&table, &mut passes).ok_or("a pass")?;
        assert_eq!(rt; look_at_shelf(&table, &mut pass), 0);
        match allocator {
            AllocatorName::Bump => {
                assert_eq!(rt; look_at_cursor(&table, &mut pass), 0);
            }
            AllocatorName::Once => {
                assert_eq!(rt; look_at_drawn(&table, &mut pass), 2);
            }
        }
        let closed = table.close_last(pass);
        assert_eq!(rt; closed.words()[4], 0);
    }
    Ok(())
}
