// Words, each with the command that they name.
use super::*;
use set_model::{AllocatorName, ReclaimerName, SetName};
use std::alloc::{AllocError, Global};
use std::test::Fail;

fn words_of(alloc: Global, words: &[&str]) -> Result<Vec<String>, AllocError> {
    let mut all = Vec::new(alloc);
    for word in words {
        all.push(String::from_str(alloc, word)?)?;
    }
    Ok(all)
}

/// The command of words that are written in one line, a blank between two.
fn command_of(alloc: Global, line: &str) -> Result<Option<Command>, AllocError> {
    let mut all = Vec::new(alloc);
    for word in line.split(' ') {
        all.push(String::from_str(alloc, word)?)?;
    }
    Ok(read_command(&all))
}

const PLAIN: PlayWords = PlayWords {
    set: SetName::Plain,
    reclaimer: ReclaimerName::Nothing,
    allocator: AllocatorName::Bump,
    buckets: 64,
    records: None,
};

#[test]
fn names_of_play_in_any_order(rt: HostRuntime) -> Result<(), Fail> {
    let alloc = rt.alloc();
    let lines = [
        "play --set plain --reclaimer none",
        "play --reclaimer none --set plain",
        "play --reclaimer none --allocator bump --set plain",
        "play --buckets 64 --reclaimer none --set plain",
    ];
    for line in lines {
        assert_eq!(rt;
            command_of(alloc, line)?,
            Some(Command::Play(PLAIN)),
            "{line}"
        );
    }
    let all = "play --records 1048575 --buckets 4096 --allocator bump --reclaimer none --set plain";
    let chosen = PlayWords {
        buckets: 4096,
        records: Some(1_048_575),
        ..PLAIN
    };
    assert_eq!(rt; command_of(alloc, all)?, Some(Command::Play(chosen)));
    let few = "play --set plain --reclaimer none --records 1 --buckets 1";
    let chosen = PlayWords {
        buckets: 1,
        records: Some(1),
        ..PLAIN
    };
    assert_eq!(rt; command_of(alloc, few)?, Some(Command::Play(chosen)));
    Ok(())
}

#[test]
fn pairs_that_are_not_lawful_are_told(rt: HostRuntime) -> Result<(), Fail> {
    let rows = [
        (
            "play --set lazy --reclaimer hazard",
            SetName::Lazy,
            ReclaimerName::Hazard,
        ),
        (
            "play --set lazy --reclaimer 2geibr",
            SetName::Lazy,
            ReclaimerName::Ibr,
        ),
        (
            "play --set plain --reclaimer debra",
            SetName::Plain,
            ReclaimerName::Debra,
        ),
    ];
    for (line, set, reclaimer) in rows {
        let chosen = PlayWords {
            set,
            reclaimer,
            ..PLAIN
        };
        let command = command_of(rt.alloc(), line)?;
        assert_eq!(rt; command, Some(Command::Play(chosen)), "{line}");
    }
    Ok(())
}

#[test]
fn other_modes(rt: HostRuntime) -> Result<(), Fail> {
    let alloc = rt.alloc();
    assert_eq!(rt; command_of(alloc, "check")?, Some(Command::Check));
    let workload = Workloads {
        callers: 64,
        calls: 15_625,
        keys: 268_435_456,
        seed: 18_446_744_073_709_551_615,
        shared: false,
    };
    let line = "generate --keys 268435456 --seed 18446744073709551615 --calls 15625 --callers 64";
    assert_eq!(rt; command_of(alloc, line)?, Some(Command::Generate(workload)));
    let shared = Workloads {
        shared: true,
        calls: 0,
        keys: 1,
        seed: 0,
        callers: 2,
    };
    let line = "generate --shared yes --callers 2 --calls 0 --keys 1 --seed 0";
    assert_eq!(rt; command_of(alloc, line)?, Some(Command::Generate(shared)));
    let not_shared = Workloads {
        shared: false,
        ..shared
    };
    let line = "generate --shared no --callers 2 --calls 0 --keys 1 --seed 0";
    assert_eq!(rt;
        command_of(alloc, line)?,
        Some(Command::Generate(not_shared))
    );
    let trial = TrialWords {
        set: SetName::Plain,
        reclaimer: ReclaimerName::Nothing,
        workload: Workloads {
            callers: 4,
            calls: 250_000,
            keys: 1000,
            seed: 7,
            shared: false,
        },
    };
    let line = "trial --set plain --reclaimer none --callers 4 --calls 250000 --keys 1000 --seed 7";
    assert_eq!(rt; command_of(alloc, line)?, Some(Command::Trial(trial)));
    let reclaimed = TrialWords {
        set: SetName::Michael,
        reclaimer: ReclaimerName::Debra,
        ..trial
    };
    let line =
        "trial --set michael --reclaimer debra --callers 4 --calls 250000 --keys 1000 --seed 7";
    assert_eq!(rt; command_of(alloc, line)?, Some(Command::Trial(reclaimed)));
    let by_intervals = TrialWords {
        reclaimer: ReclaimerName::Ibr,
        ..reclaimed
    };
    let line =
        "trial --set michael --reclaimer 2geibr --callers 4 --calls 250000 --keys 1000 --seed 7";
    assert_eq!(rt;
        command_of(alloc, line)?,
        Some(Command::Trial(by_intervals))
    );
    Ok(())
}

/// Words that are refused, one of each kind. The tests of `bench_core` have more.
const REFUSED: [&str; 9] = [
    "play  --set plain --reclaimer none",
    "play --set plain",
    "play --set plain --reclaimer",
    "generate --callers 2 --calls 0 --keys 1 --seed 7 --seed 8",
    "check --set plain",
    "play --set plain --reclaimer none --records 1048576",
    "play --set michael --reclaimer none --records 63",
    "trial --set lazy --reclaimer none --callers 2 --calls 0 --keys 1 --seed 7",
    "play --set plain --reclaimer none --allocator once",
];

#[test]
fn other_words_are_refused(rt: HostRuntime) -> Result<(), Fail> {
    let alloc = rt.alloc();
    assert_eq!(rt; read_command(&words_of(alloc, &[])?), None);
    for line in REFUSED {
        assert_eq!(rt; command_of(alloc, line)?, None, "{line}");
    }
    Ok(())
}
