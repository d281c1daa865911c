// The numbers that tables are made with.
use crate::managers::ListManager;
use crate::opening::open;
use record_table::PrepareError;
use row_words::Generation;
use std::test::Fail;

#[test]
fn refuses_bad_numbers(rt: HostRuntime) -> Result<(), Fail> {
    let first = Generation::new(1).ok_or("a generation")?;
    for (records, callers, want) in [
        (0, 1, PrepareError::Records),
        (1_048_576, 1, PrepareError::Records),
        (1, 0, PrepareError::Callers),
        (1, 65, PrepareError::Callers),
        (1_048_575, 65, PrepareError::Callers),
        (0, 0, PrepareError::Records),
    ] {
        let table = open(rt.alloc(), records, callers, first, 1);
        let manager = ListManager::prepare(rt.alloc(), records, callers, first, 1);
        let said = (table.err(), manager.err());
        assert!(rt;
            said.0 == Some(want) && said.1 == said.0,
            "{records} records, {callers} callers"
        );
    }
    Ok(())
}

#[test]
fn makes_the_largest_table(rt: HostRuntime) -> Result<(), Fail> {
    let first = Generation::new(1).ok_or("a generation")?;
    let (table, passes) = open(rt.alloc(), 1_048_575, 64, first, 1)?;
    assert_eq!(rt; passes.len(), 64);
    let closed = table.close(passes);
    // Five control words for each caller beside the first twenty, and eight words for each record.
    assert_eq!(rt; closed.words().len(), 340 + 8_388_600);
    assert_eq!(rt; closed.words().last(), Some(&0));
    Ok(())
}
