use super::*;
use std::test::*;

/// Each set with the reclaimers under which it is lawful, as the documents list them.
const LAWFUL: [(SetName, ReclaimerName); 7] = [
    (SetName::Plain, ReclaimerName::Nothing),
    (SetName::Michael, ReclaimerName::Nothing),
    (SetName::Michael, ReclaimerName::Debra),
    (SetName::Michael, ReclaimerName::Hazard),
    (SetName::Michael, ReclaimerName::Ibr),
    (SetName::Lazy, ReclaimerName::Nothing),
    (SetName::Lazy, ReclaimerName::Debra),
];

const UNLAWFUL: [(SetName, ReclaimerName); 5] = [
    (SetName::Plain, ReclaimerName::Debra),
    (SetName::Plain, ReclaimerName::Hazard),
    (SetName::Plain, ReclaimerName::Ibr),
    (SetName::Lazy, ReclaimerName::Hazard),
    (SetName::Lazy, ReclaimerName::Ibr),
];

#[test]
fn takes_seven_pairs(rt: HostRuntime) {
    for (set, reclaimer) in LAWFUL {
        match lawful(set, reclaimer) {
            Ok(pair) => {
                assert_eq!(rt; pair.set, set);
                assert_eq!(rt; pair.reclaimer, reclaimer);
            }
            Err(refused) => panic!(rt; "refused: {refused:?}"),
        }
    }
}

#[test]
fn refuses_five_pairs(rt: HostRuntime) {
    for (set, reclaimer) in UNLAWFUL {
        let refused = Unlawful { set, reclaimer };
        assert_eq!(rt; lawful(set, reclaimer), Err(refused));
    }
}
