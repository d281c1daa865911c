// What a table is refused for.
ghost use Rattle.std.specs.Prelude.{◌<◌};

use alloc_bump::Bump;
use michael_hash::MichaelHash;
use pool::NoPool;
use reclaim_none::NoReclaim;
use record_table::PrepareError;
use row_words::Generation;
use std::alloc::Global;
use std::test::Fail;

// Why such a table isn't made, where it isn't.
fn refusal(
    alloc: Global,
    records: u32,
    callers: u32,
    first: Generation,
    buckets: u32,
) -> Option<PrepareError>
    requires { 0 < buckets }
{
    match MichaelHash::<NoReclaim, Bump, NoPool>::prepare(alloc, records, callers, first, buckets) {
        Ok(_) => None,
        Err(why) => Some(why),
    }
}

#[test]
fn a_table_has_1_to_64_callers(rt: HostRuntime) -> Result<(), Fail> {
    let first = Generation::new(1).ok_or("one")?;
    assert_eq!(rt;
        refusal(rt.alloc(), 100, 0, first, 64),
        Some(PrepareError::Callers)
    );
    assert_eq!(rt;
        refusal(rt.alloc(), 100, 65, first, 64),
        Some(PrepareError::Callers)
    );
    assert_eq!(rt; refusal(rt.alloc(), 100, 64, first, 64), None);
    Ok(())
}

#[test]
fn each_bucket_takes_a_record(rt: HostRuntime) -> Result<(), Fail> {
    let first = Generation::new(1).ok_or("one")?;
    assert_eq!(rt;
        refusal(rt.alloc(), 63, 1, first, 64),
        Some(PrepareError::Records)
    );
    // The number of records is looked at first.
    assert_eq!(rt;
        refusal(rt.alloc(), 63, 65, first, 64),
        Some(PrepareError::Records)
    );
    assert_eq!(rt; refusal(rt.alloc(), 64, 1, first, 64), None);
    Ok(())
}

#[test]
fn a_table_has_1_to_1048575_records(rt: HostRuntime) -> Result<(), Fail> {
    let first = Generation::new(1).ok_or("one")?;
    for (records, callers) in [(0, 1), (0, 0), (1_048_576, 1), (1_048_576, 65)] {
        assert_eq!(rt;
            refusal(rt.alloc(), records, callers, first, 1),
            Some(PrepareError::Records),
            "{records}"
        );
    }
    assert_eq!(rt; refusal(rt.alloc(), 1, 1, first, 1), None);
    assert_eq!(rt; refusal(rt.alloc(), 1_048_575, 1, first, 1), None);
    Ok(())
}
