use super::*;
use std::test::Fail;

// The words of a link from a record of generation 1 to record 2, whose generation is 1 too, clean
// and marked.
const CLEAN_WORD: u64 = 0x0000_1000_0010_0002;

const MARKED_WORD: u64 = 0x0000_1100_0010_0002;

// The word of key 5 under generation 1.
const KEY_WORD: u64 = 0x0000_1000_0000_0005;

fn generation(n: u32) -> Result<Generation, Fail> {
    Ok(Generation::new(n).ok_or("no generation")?)
}

#[test]
fn generations_have_limits(rt: HostRuntime) -> Result<(), Fail> {
    for (n, is_one) in [
        (0, false),
        (1, true),
        (1_048_575, true),
        (1_048_576, false),
        (u32::MAX, false),
    ] {
        assert_eq!(rt; Generation::new(n).is_some(), is_one, "{n}");
    }
    assert_eq!(rt; generation(1)?.next(), Generation::new(2));
    assert_eq!(rt; generation(1_048_574)?.next(), Generation::new(1_048_575));
    assert_eq!(rt; generation(1_048_575)?.next(), None);
    assert_eq!(rt; generation(7)?.get(), 7);
    Ok(())
}

#[test]
fn links_have_flags(rt: HostRuntime) -> Result<(), Fail> {
    let link = Link::to(Some(Ref::new(2, generation(1)?)));
    assert_eq!(rt; link.flags, 0);
    assert_eq!(rt; link.marked().flags, 1);
    assert_eq!(rt; link.locked().flags, 2);
    assert!(rt; link.marked().is_marked());
    assert!(rt; !link.marked().is_locked());
    assert!(rt; link.locked().is_locked());
    assert!(rt; !link.locked().is_marked());
    assert_eq!(rt; link.marked().clean(), link);
    assert_eq!(rt; Link::to(None).target, None);
    Ok(())
}

#[test]
fn words_are_packed(rt: HostRuntime) -> Result<(), Fail> {
    let target = Some(Ref::new(2, generation(1)?));
    for (flags, word) in [(0, CLEAN_WORD), (MARK, MARKED_WORD)] {
        let link = Link { flags, target };
        let packed = pack_link(1, link);
        assert_eq!(rt; packed, word);
        assert_eq!(rt; own_of(packed), 1);
        assert_eq!(rt; link_of(packed), link);
    }
    assert_eq!(rt; CLEAN_WORD, 17_592_187_092_994);
    assert_eq!(rt; MARKED_WORD, 18_691_698_720_770);
    assert_eq!(rt; pack_key(1, 0, 5), KEY_WORD);
    assert_eq!(rt; KEY_WORD, 17_592_186_044_421);
    assert_eq!(rt; key_of(KEY_WORD), 5);
    assert_eq!(rt; kind_of(KEY_WORD), 0);
    assert_eq!(rt; own_of(KEY_WORD), 1);
    Ok(())
}

#[test]
fn ends_of_ranges_are_packed(rt: HostRuntime) -> Result<(), Fail> {
    let last = Ref::new(1_048_575, generation(1_048_575)?);
    let link = Link {
        flags: 15,
        target: Some(last),
    };
    assert_eq!(rt; pack_link(1_048_575, link), u64::MAX);
    assert_eq!(rt; link_of(pack_link(1_048_575, link)), link);
    let end = Link {
        flags: LOCK,
        target: None,
    };
    assert_eq!(rt; pack_link(0, end), 2 << 40);
    assert_eq!(rt; link_of(pack_link(0, end)), end);
    assert_eq!(rt; ref_of(pack_ref(Some(last))), Some(last));
    assert_eq!(rt; pack_ref(Some(last)), 0xff_ffff_ffff);
    assert_eq!(rt; ref_of(pack_ref(None)), None);
    assert_eq!(rt; pack_key(3, 2, 0xff_ffff_ffff), 0x32ff_ffff_ffff);
    assert_eq!(rt; kind_of(0x32ff_ffff_ffff), 2);
    assert_eq!(rt; pack_number(2, 9), 0x2000_0000_0009);
    assert_eq!(rt; number_of(0x2000_0000_0009), 9);
    Ok(())
}
