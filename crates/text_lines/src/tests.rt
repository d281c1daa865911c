use super::*;
use set_model::Call;
use std::test::*;

#[test]
fn numbers_of_all_kinds(rt: HostRuntime) {
    let rows = [
        (b"0".as_slice(), Number::Value(0)),
        (b"7".as_slice(), Number::Value(7)),
        (b"64".as_slice(), Number::Value(64)),
        (b"65".as_slice(), Number::TooLarge),
        (
            b"9999999999999999999999999999999999999999".as_slice(),
            Number::TooLarge,
        ),
        (b"".as_slice(), Number::NoNumber),
        (b"00".as_slice(), Number::NoNumber),
        (b"07".as_slice(), Number::NoNumber),
        (b"+7".as_slice(), Number::NoNumber),
        (b"-0".as_slice(), Number::NoNumber),
        (b"7 ".as_slice(), Number::NoNumber),
        (b"65x".as_slice(), Number::NoNumber),
        (b"\xff".as_slice(), Number::NoNumber),
    ];
    for (i, (bytes, number)) in rows.iter().enumerate() {
        assert_eq!(rt; read_number(bytes, 64), *number, "row {i}");
    }
}

#[test]
fn the_greatest_numbers(rt: HostRuntime) {
    let greatest = b"18446744073709551615";
    assert_eq!(rt; read_number(greatest, u64::MAX), Number::Value(u64::MAX));
    assert_eq!(rt; read_number(greatest, u64::MAX - 1), Number::TooLarge);
    let above = b"18446744073709551616";
    assert_eq!(rt; read_number(above, u64::MAX), Number::TooLarge);
}

#[test]
fn calls_of_all_kinds(rt: HostRuntime) {
    let rows = [
        (Call::Insert(0), b"".as_slice(), b"i 0".as_slice()),
        (Call::Remove(10), b"\n".as_slice(), b"r 10\n".as_slice()),
        (
            Call::Search(1_099_511_627_773),
            b" yes\n".as_slice(),
            b"s 1099511627773 yes\n".as_slice(),
        ),
        (
            Call::Insert(u64::MAX),
            b"12345678".as_slice(),
            b"i 1844674407370955161512345678".as_slice(),
        ),
    ];
    for (call, end, text) in rows {
        // What another call left in the buffer has no effect.
        let mut buffer = [b'x'; 32];
        assert!(rt; end.len() <= 8);
        assert_eq!(rt; write_call(call, end, &mut buffer), text);
    }
}
