// Workloads as another program of the generator gives them: PCG's reference code (XSH RR, 64 bits of
// state and words of 32 bits), written again in Python from its description.
use super::*;
use set_model::Call;
use std::test::Fail;

#[test]
fn keys_of_their_own(rt: HostRuntime) -> Result<(), Fail> {
    let plan = GenPlan {
        callers: 2,
        calls: 4,
        keys: 10,
        seed: 7,
        shared: false,
    };
    let workload = generate(rt.alloc(), &plan)?;
    assert_eq!(rt; workload.version(), 1);
    assert_eq!(rt; workload.callers(), 2);
    assert_eq!(rt; workload.total(), 8);
    let first = [
        Call::Insert(4),
        Call::Search(14),
        Call::Insert(4),
        Call::Insert(14),
    ];
    let second = [
        Call::Remove(13),
        Call::Insert(3),
        Call::Insert(3),
        Call::Search(19),
    ];
    assert_eq!(rt; workload.calls_of(0), first.as_slice());
    assert_eq!(rt; workload.calls_of(1), second.as_slice());
    Ok(())
}

#[test]
fn shared_keys(rt: HostRuntime) -> Result<(), Fail> {
    let plan = GenPlan {
        callers: 2,
        calls: 4,
        keys: 10,
        seed: 7,
        shared: true,
    };
    let workload = generate(rt.alloc(), &plan)?;
    let first = [
        Call::Insert(2),
        Call::Search(7),
        Call::Insert(2),
        Call::Insert(7),
    ];
    let second = [
        Call::Remove(6),
        Call::Insert(1),
        Call::Insert(1),
        Call::Search(9),
    ];
    assert_eq!(rt; workload.calls_of(0), first.as_slice());
    assert_eq!(rt; workload.calls_of(1), second.as_slice());
    Ok(())
}

#[test]
fn the_greatest_seed_and_the_most_keys(rt: HostRuntime) -> Result<(), Fail> {
    let plan = GenPlan {
        callers: 3,
        calls: 2,
        keys: 268_435_456,
        seed: u64::MAX,
        shared: false,
    };
    let workload = generate(rt.alloc(), &plan)?;
    let rows = [
        [Call::Insert(239_326_872), Call::Remove(618_666_801)],
        [Call::Insert(248_238_067), Call::Insert(592_761_778)],
        [Call::Insert(109_388_372), Call::Search(252_882_671)],
    ];
    for (i, calls) in rows.iter().enumerate() {
        assert!(rt; i < 3);
        assert_eq!(rt; workload.calls_of(i as u32), calls.as_slice(), "caller {i}");
    }
    Ok(())
}

#[test]
fn the_most_callers(rt: HostRuntime) -> Result<(), Fail> {
    let plan = GenPlan {
        callers: 64,
        calls: 1,
        keys: 5,
        seed: 0,
        shared: false,
    };
    let workload = generate(rt.alloc(), &plan)?;
    assert_eq!(rt; workload.callers(), 64);
    assert_eq!(rt; workload.calls_of(62), [Call::Remove(254)].as_slice());
    assert_eq!(rt; workload.calls_of(63), [Call::Insert(255)].as_slice());
    Ok(())
}

#[test]
fn the_most_calls_and_none(rt: HostRuntime) -> Result<(), Fail> {
    let most = GenPlan {
        callers: 64,
        calls: 15_625,
        keys: 1,
        seed: 1,
        shared: true,
    };
    assert_eq!(rt; generate(rt.alloc(), &most)?.total(), 1_000_000);
    let none = GenPlan {
        callers: 1,
        calls: 0,
        keys: 1,
        seed: 1,
        shared: true,
    };
    assert_eq!(rt; generate(rt.alloc(), &none)?.total(), 0);
    Ok(())
}
