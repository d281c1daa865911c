// What is refused: words, pairs, and bytes that are no workload, with the status and the line of each.

use super::*;
use crate::tests::{COMMAND, Outcome, run_on};
use std::alloc::{AllocError, Global};
use std::sync::Wait;
use std::test::Fail;
use std::thread::Threads;

/// The words of a line, a blank between two. Without a line there is none.
fn words_in(alloc: Global, line: &'static str) -> Result<Vec<&'static str>, AllocError> {
    let mut words = Vec::new(alloc);
    for word in line.split(' ') {
        words.push(word)?;
    }
    Ok(words)
}

/// Words that are refused, for what is wrong with them.
const WORDS: [&str; 79] = [
    // No mode, or another spelling of one.
    "",
    "Play --set plain --reclaimer none",
    "play  --set plain --reclaimer none",
    "--set plain --reclaimer none",
    "run --set plain --reclaimer none",
    // A name that is needed is missing, or its value is.
    "play",
    "play --set plain",
    "play --reclaimer none",
    "play --set plain --reclaimer",
    "play --set plain --reclaimer none --records",
    "play --reclaimer none --set",
    "play --set plain --reclaimer none --allocator",
    "play --set plain --reclaimer none --buckets",
    "generate --calls 0 --keys 1 --seed 7 --callers",
    "generate --callers 2 --keys 1 --seed 7 --calls",
    "generate --callers 2 --calls 0 --seed 7 --keys",
    "generate --callers 2 --calls 0 --keys 1 --seed",
    "generate --callers 2 --calls 0 --keys 1 --seed 7 --shared",
    "generate --callers 2 --calls 0 --keys 1",
    "generate --callers 2 --calls 0 --seed 7",
    "generate --callers 2 --keys 1 --seed 7",
    "generate --calls 0 --keys 1 --seed 7",
    "trial --set plain --callers 2 --calls 0 --keys 1 --seed 7",
    "trial --reclaimer none --callers 2 --calls 0 --keys 1 --seed 7",
    // A name twice.
    "play --set plain --reclaimer none --set plain",
    "play --set michael --reclaimer none --set michael",
    "play --set plain --reclaimer none --reclaimer debra",
    "play --set plain --reclaimer none --allocator bump --allocator bump",
    "play --set plain --reclaimer none --buckets 8 --buckets 8",
    "play --set plain --reclaimer none --records 8 --records 9",
    "generate --callers 2 --calls 0 --keys 1 --seed 7 --seed 7",
    "generate --callers 2 --calls 0 --keys 1 --seed 7 --callers 2",
    "generate --callers 2 --calls 0 --keys 1 --seed 7 --calls 0",
    "generate --callers 2 --calls 0 --keys 1 --seed 7 --keys 1",
    "generate --callers 2 --calls 0 --keys 1 --seed 7 --shared no --shared no",
    // A name of another mode, or of none.
    "play --set plain --reclaimer none --callers 1",
    "play --set plain --reclaimer none --calls 0",
    "play --set plain --reclaimer none --keys 1",
    "play --set plain --reclaimer none --seed 7",
    "play --set plain --reclaimer none --shared no",
    "play --set plain --reclaimer none --threads 1",
    "check --set plain",
    "check check",
    "generate --set plain --callers 2 --calls 0 --keys 1 --seed 7",
    "generate --callers 2 --calls 0 --keys 1 --seed 7 --reclaimer none",
    "generate --callers 2 --calls 0 --keys 1 --seed 7 --allocator bump",
    "generate --callers 2 --calls 0 --keys 1 --seed 7 --buckets 64",
    "generate --callers 2 --calls 0 --keys 1 --seed 7 --records 100",
    "trial --set plain --reclaimer none --callers 2 --calls 0 --keys 1 --seed 7 --allocator bump",
    "trial --set plain --reclaimer none --callers 2 --calls 0 --keys 1 --seed 7 --records 100",
    "trial --set plain --reclaimer none --callers 2 --calls 0 --keys 1 --seed 7 --shared no",
    "trial --set plain --reclaimer none --callers 2 --calls 0 --keys 1 --seed 7 --buckets 64",
    // A value that isn't one of its name's, or just out of range.
    "play --set tree --reclaimer none",
    "play --set plain --reclaimer None",
    "play --set plain --reclaimer none --allocator heap",
    "play --set plain --reclaimer none --buckets 0",
    "play --set plain --reclaimer none --buckets 4097",
    "play --set plain --reclaimer none --records 0",
    "play --set plain --reclaimer none --records 1048576",
    "play --set plain --reclaimer none --records 007",
    "play --set plain --reclaimer none --records +7",
    "play --set plain --reclaimer none --records 99999999999999999999999",
    "generate --callers 0 --calls 0 --keys 1 --seed 7",
    "generate --callers 65 --calls 0 --keys 1 --seed 7",
    "generate --callers 64 --calls 15626 --keys 1 --seed 7",
    "generate --callers 1 --calls 1000001 --keys 1 --seed 7",
    "generate --callers 2 --calls 0 --keys 0 --seed 7",
    "generate --callers 2 --calls 0 --keys 268435457 --seed 7",
    "generate --callers 2 --calls 0 --keys 1 --seed 18446744073709551616",
    "generate --callers 2 --calls 0 --keys 1 --seed -1",
    "generate --callers 2 --calls 0 --keys 1 --seed 7 --shared maybe",
    // Fewer records than a hash table has roots.
    "play --set michael --reclaimer none --buckets 8 --records 4",
    "play --set michael --reclaimer none --records 63",
    "play --set michael --reclaimer none --records 007",
    // What isn't built yet.
    "play --set lazy --reclaimer debra --records 64",
    "play --set lazy --reclaimer none",
    "trial --set lazy --reclaimer debra --callers 2 --calls 0 --keys 1 --seed 7",
    "play --set plain --reclaimer none --allocator once",
    "play --set plain --reclaimer debra --allocator once",
];

#[test]
fn words_are_refused(rt: HostRuntime) -> Result<(), Fail> {
    let alloc = rt.alloc();
    let text = "setbench: words refused\n";
    // A source that fails at its first call would be noticed.
    let none = run_on(&rt, alloc, &[], b"", &[1], 4096, &[])?;
    assert_eq!(rt; none.status, 2);
    assert_eq!(rt; none.got.as_slice(), text.as_bytes());
    for line in WORDS {
        let end = run_on(&rt, alloc, &words_in(alloc, line)?, b"", &[1], 4096, &[])?;
        assert_eq!(rt; end.status, 2, "{line}");
        assert_eq!(rt; end.got.as_slice(), text.as_bytes(), "{line}");
        assert!(rt; !end.has_run, "{line}");
    }
    Ok(())
}

/// Each set and each reclaimer that isn't lawful with it.
const PAIRS: [(&str, &str); 5] = [
    ("lazy", "hazard"),
    ("lazy", "2geibr"),
    ("plain", "debra"),
    ("plain", "hazard"),
    ("plain", "2geibr"),
];

#[test]
fn unlawful_pairs_read_nothing(rt: HostRuntime) -> Result<(), Fail> {
    let alloc = rt.alloc();
    for (set, reclaimer) in PAIRS {
        let words = ["play", "--set", set, "--reclaimer", reclaimer];
        let line = format!(in alloc; "setbench: {set} under {reclaimer} is not lawful\n")?;
        // A source that fails at its first call would be noticed.
        let end = run_on(&rt, alloc, &words, b"", &[1], 4096, &[])?;
        assert_eq!(rt; end.status, 4, "{set} {reclaimer}");
        assert_eq!(rt; end.got.as_slice(), line.as_bytes(), "{set} {reclaimer}");
    }
    let trial = "trial --set lazy --reclaimer hazard --callers 1 --calls 1 --keys 1 --seed 1";
    let end = run_on(&rt, alloc, &words_in(alloc, trial)?, b"", &[1], 4096, &[])?;
    assert_eq!(rt; end.status, 4);
    let line = b"setbench: lazy under hazard is not lawful\n".as_slice();
    assert_eq!(rt; end.got.as_slice(), line);
    Ok(())
}

/// Bytes that are no workload, and why.
const TEXTS: [(&str, &str); 62] = [
    // The first line.
    ("setbench 3\n", "line 1: header"),
    ("setbench 0\n", "line 1: header"),
    ("setbench 01\n", "line 1: header"),
    ("setbench 1 \n", "line 1: header"),
    ("setbench 1\r\n", "line 1: header"),
    ("setbench\t1\n", "line 1: header"),
    ("Setbench 1\n", "line 1: header"),
    ("\n", "line 1: header"),
    // The second line.
    ("setbench 1\ncallers 65\n", "line 2: callers"),
    ("setbench 1\ncallers 0\n", "line 2: callers"),
    ("setbench 2\ncallers 01\n", "line 2: callers"),
    ("setbench 1\ncallers 1\r\n", "line 2: callers"),
    ("setbench 1\ncallers 1 \n", "line 2: callers"),
    ("setbench 2\ncallers\t1\n", "line 2: callers"),
    ("setbench 1\ncaller 0\n", "line 2: callers"),
    // The third line.
    ("setbench 1\ncallers 2\ncaller 1\n", "line 3: bad line"),
    ("setbench 1\ncallers 1\ncaller 00\n", "line 3: bad line"),
    ("setbench 1\ncallers 1\ncaller 0\r\n", "line 3: bad line"),
    ("setbench 1\ncallers 1\ncaller 0 \n", "line 3: bad line"),
    ("setbench 1\ncallers 1\ncaller\t0\n", "line 3: bad line"),
    ("setbench 1\ncallers 1\ni 5\n", "line 3: bad line"),
    ("setbench 1\ncallers 1\nend\n", "line 3: bad line"),
    // Lines of calls.
    (
        "setbench 1\ncallers 1\ncaller 0\ni 5\r\nend\n",
        "line 4: bad line",
    ),
    (
        "setbench 1\ncallers 1\ncaller 0\ni 5 \nend\n",
        "line 4: bad line",
    ),
    (
        "setbench 1\ncallers 1\ncaller 0\ni\t5\nend\n",
        "line 4: bad line",
    ),
    (
        "setbench 1\ncallers 1\ncaller 0\ni 05\nend\n",
        "line 4: bad line",
    ),
    (
        "setbench 1\ncallers 1\ncaller 0\ni +5\nend\n",
        "line 4: bad line",
    ),
    (
        "setbench 1\ncallers 1\ncaller 0\ni -0\nend\n",
        "line 4: bad line",
    ),
    (
        "setbench 1\ncallers 1\ncaller 0\ni\nend\n",
        "line 4: bad line",
    ),
    (
        "setbench 1\ncallers 1\ncaller 0\ni \nend\n",
        "line 4: bad line",
    ),
    (
        "setbench 1\ncallers 1\ncaller 0\nI 5\nend\n",
        "line 4: bad line",
    ),
    (
        "setbench 1\ncallers 1\ncaller 0\nx 5\nend\n",
        "line 4: bad line",
    ),
    (
        "setbench 1\ncallers 1\ncaller 0\ni 5\0\nend\n",
        "line 4: bad line",
    ),
    (
        "setbench 1\ncallers 1\ncaller 0\ni \u{80}\nend\n",
        "line 4: bad line",
    ),
    (
        "setbench 1\ncallers 1\ncaller 0\n\nend\n",
        "line 4: bad line",
    ),
    (
        "setbench 1\ncallers 1\ncaller 0\ni 1099511627774\nend\n",
        "line 4: key out of range",
    ),
    (
        "setbench 1\ncallers 1\ncaller 0\ni 0\ni 1099511627774\nend\n",
        "line 5: key out of range",
    ),
    (
        "setbench 1\ncallers 1\ncaller 0\ns 5\nr 9999999999999999999999999999999999999999\nend\n",
        "line 5: key out of range",
    ),
    // Lines of phases.
    (
        "setbench 1\ncallers 1\ncaller 0\nphase\nend\n",
        "line 4: bad line",
    ),
    (
        "setbench 2\ncallers 1\ncaller 0\nphase 1\nend\n",
        "line 4: bad line",
    ),
    (
        "setbench 2\ncallers 1\ncaller 0\nPhase\nend\n",
        "line 4: bad line",
    ),
    (
        "setbench 2\ncallers 1\ncaller 0\nphase\r\nend\n",
        "line 4: bad line",
    ),
    (
        "setbench 2\ncallers 1\ncaller 0\nphase \nend\n",
        "line 4: bad line",
    ),
    (
        "setbench 2\ncallers 2\ncaller 0\nphase\ncaller 1\nend\n",
        "line 6: bad line",
    ),
    (
        "setbench 2\ncallers 2\ncaller 0\ncaller 1\nphase\nend\n",
        "line 5: bad line",
    ),
    (
        "setbench 2\ncallers 3\ncaller 0\nphase\ncaller 1\ncaller 2\n",
        "line 6: bad line",
    ),
    // Lines of callers, and the end.
    (
        "setbench 1\ncallers 1\ncaller 0\ncaller 0\nend\n",
        "line 4: bad line",
    ),
    (
        "setbench 1\ncallers 1\ncaller 0\ncaller 1\nend\n",
        "line 4: bad line",
    ),
    ("setbench 1\ncallers 2\ncaller 0\nend\n", "line 4: bad line"),
    (
        "setbench 1\ncallers 3\ncaller 0\ncaller 2\n",
        "line 4: bad line",
    ),
    (
        "setbench 1\ncallers 2\ncaller 0\ncaller 01\n",
        "line 4: bad line",
    ),
    ("setbench 1\ncallers 1\ncaller 0\nEnd\n", "line 4: bad line"),
    (
        "setbench 1\ncallers 1\ncaller 0\nend \n",
        "line 4: bad line",
    ),
    (
        "setbench 1\ncallers 1\ncaller 0\nend\r\n",
        "line 4: bad line",
    ),
    (
        "setbench 1\ncallers 2\ncaller 0\ncaller 1\r\n",
        "line 4: bad line",
    ),
    (
        "setbench 1\ncallers 1\ncaller 0\nend\nx",
        "line 5: bad line",
    ),
    (
        "setbench 1\ncallers 1\ncaller 0\nend\n\n",
        "line 5: bad line",
    ),
    (
        "setbench 1\ncallers 1\ncaller 0\nend\nend\n",
        "line 5: bad line",
    ),
    ("setbench 1\ncallers 1\ncaller 0\ni 5\n", "no end"),
    ("setbench 1\ncallers 1\ncaller 0\nend", "no end"),
    ("", "no end"),
    ("setbench 1\ncallers 1\n", "no end"),
];

fn play_text<T: Threads + Wait + Sync>(rt: &T, alloc: Global, text: &str) -> Result<Outcome, Fail> {
    run_on(rt, alloc, &COMMAND, text.as_bytes(), &[], 4096, &[])
}

#[test]
fn other_bytes_are_refused(rt: HostRuntime) -> Result<(), Fail> {
    let alloc = rt.alloc();
    for (text, cause) in TEXTS {
        let line = format!(in alloc; "setbench: workload refused: {cause}\n")?;
        let end = play_text(&rt, alloc, text)?;
        assert_eq!(rt; end.status, 3, "{text}");
        assert_eq!(rt; end.got.as_slice(), line.as_bytes(), "{text}");
        assert!(rt; !end.has_run, "{text}");
    }
    Ok(())
}

/// A text of one caller with 1,000,000 searches, and these lines behind that.
fn searches(alloc: Global, last: &str) -> Result<Vec<u8>, AllocError> {
    let mut lines = Vec::new(alloc);
    for _ in 0..1_000_u32 {
        lines.extend_from_slice(b"s 1\n")?;
    }
    let mut text = Vec::new(alloc);
    text.extend_from_slice(b"setbench 1\ncallers 1\ncaller 0\n")?;
    for _ in 0..1_000_u32 {
        text.extend_from_slice(&lines)?;
    }
    text.extend_from_slice(last.as_bytes())?;
    Ok(text)
}

#[test]
fn a_call_too_many_is_refused(rt: HostRuntime) -> Result<(), Fail> {
    let alloc = rt.alloc();
    let rows = [
        ("s 1\nend\n", "line 1000004: too many calls"),
        ("s 1099511627774\nend\n", "line 1000004: key out of range"),
    ];
    for (last, cause) in rows {
        let line = format!(in alloc; "setbench: workload refused: {cause}\n")?;
        let text = searches(alloc, last)?;
        let end = run_on(&rt, alloc, &["check"], &text, &[], 4096, &[])?;
        assert_eq!(rt; end.status, 3, "at {last}");
        assert_eq!(rt; end.got.as_slice(), line.as_bytes(), "at {last}");
    }
    Ok(())
}
