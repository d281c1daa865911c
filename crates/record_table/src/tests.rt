use crate::{Cover, Shape, prepare};
use row_words::Generation;
use set_model::{AllocatorName, ReclaimerName, SetName};
use std::test::Fail;

// A set in which nothing is linked, and a reclaimer that frees nothing.
struct NoSet;

impl Shape for NoSet {
    ghost use Rattle.std.specs.Prelude.{refl};
    ghost use Rattle.set_model.specs.declared.names.SetName.TheVariants.{Plain};
    ghost use Rattle.record_rule.specs.Least.{least_shape, least_shape_laws};

    const NAME: SetName = SetName::Plain;

    ghost NAME = { Plain };

    ghost facts = { least_shape };

    ghost laws = { least_shape_laws };

    ghost named = { refl };
}

struct NoReclaimer;

impl Cover for NoReclaimer {
    ghost use Rattle.std.specs.Prelude.{refl};
    ghost use Rattle.set_model.specs.declared.names.ReclaimerName.TheVariants.{Nothing};
    ghost use Rattle.record_rule.specs.Least.{least_cover, least_cover_laws};

    const NAME: ReclaimerName = ReclaimerName::Nothing;

    ghost NAME = { Nothing };

    ghost facts = { least_cover };

    ghost laws = { least_cover_laws };

    ghost named = { refl };
}

#[test]
fn closes_with_the_words_it_was_made_with(rt: HostRuntime) -> Result<(), Fail> {
    let first = Generation::new(5).ok_or("a generation")?;
    let (table, passes) = prepare::<NoSet, NoReclaimer>(
        rt.alloc(),
        3,
        2,
        first,
        1,
        AllocatorName::Bump,
    )?;
    let closed = table.close(passes);
    let own = 1u64 << 44;
    let words = closed.words();
    assert_eq!(rt; words.len(), 54);
    // One root counts as drawn, the epoch is 1, and all other control words are 0.
    assert_eq!(rt; words[0], 1);
    assert_eq!(rt; words[1], 1);
    for i in 2..30 {
        assert_eq!(rt; words[i], 0, "control word {i}");
    }
    // The root has generation 5 and kind 1, and the others the generation before.
    for i in 30..54 {
        let root = if i == 34 {
            5 * own + (1 << 40)
        } else {
            5 * own
        };
        assert_eq!(rt; words[i], if i < 38 { root } else { 4 * own }, "word {i}");
    }
    Ok(())
}

#[test]
fn closes_with_the_most_callers(rt: HostRuntime) -> Result<(), Fail> {
    let first = Generation::new(1).ok_or("a generation")?;
    let (table, passes) = prepare::<NoSet, NoReclaimer>(
        rt.alloc(),
        2,
        64,
        first,
        2,
        AllocatorName::Once,
    )?;
    assert_eq!(rt; passes.len(), 64);
    assert_eq!(rt; passes[63].caller(), 63);
    let closed = table.close(passes);
    assert_eq!(rt; closed.callers(), 64);
    // 340 control words, and two rows of eight.
    assert_eq!(rt; closed.words().len(), 356);
    Ok(())
}
