// Numbers and frames by themselves, and what is told of a bad line.
use crate::expect::decodes;
use cuts::cut::is_same;
use scripts::hex_word::{decode, is_hex};
use scripts::malformed::Malformed;
use scripts::number::number_in;
use std::test::Fail;

#[test]
fn numbers_are_decimal(rt: HostRuntime) {
    assert_eq!(rt; number_in(b"0"), Some(0));
    assert_eq!(rt; number_in(b"10"), Some(10));
    assert_eq!(rt; number_in(b"65536"), Some(65536));
    assert_eq!(rt; number_in(b"18446744073709551615"), Some(u64::MAX));
}

#[test]
fn other_texts_are_no_numbers(rt: HostRuntime) {
    assert_eq!(rt; number_in(b""), None);
    assert_eq!(rt; number_in(b"00"), None);
    assert_eq!(rt; number_in(b"01"), None);
    assert_eq!(rt; number_in(b"+1"), None);
    assert_eq!(rt; number_in(b"-0"), None);
    assert_eq!(rt; number_in(b"1a"), None);
    assert_eq!(rt; number_in(b"1\xff"), None);
    assert_eq!(rt; number_in(b"18446744073709551616"), None);
}

#[test]
fn hex_is_of_either_case(rt: HostRuntime) -> Result<(), Fail> {
    decodes(&rt, b"-", b"")?;
    decodes(&rt, b"00", b"\0")?;
    decodes(&rt, b"09afAF", b"\x09\xaf\xaf")?;
    decodes(
        &rt,
        b"0123456789abcdef",
        b"\x01\x23\x45\x67\x89\xab\xcd\xef",
    )
}

#[test]
fn other_texts_are_no_hex(rt: HostRuntime) {
    assert!(rt; !is_hex(b""));
    assert!(rt; !is_hex(b"0"));
    assert!(rt; !is_hex(b"000"));
    assert!(rt; !is_hex(b"--"));
    assert!(rt; !is_hex(b"0-"));
    assert!(rt; !is_hex(b"0G"));
    assert!(rt; !is_hex(b"/0"));
    assert!(rt; !is_hex(b":0"));
}

#[test]
fn a_short_buffer_is_left_alone(rt: HostRuntime) {
    let mut bytes = [1, 2];
    assert_eq!(rt; decode(b"aabbcc", &mut bytes), None);
    assert!(rt; is_same(&bytes, &[1, 2]));
    assert_eq!(rt; decode(b"aa", &mut bytes), Some(1));
    assert!(rt; is_same(&bytes, &[0xaa, 2]));
}

#[test]
fn faults_are_told_in_words(rt: HostRuntime) {
    assert_eq!(rt; Malformed::UnknownCall.words(), "no call has this name");
    assert_eq!(rt;
        Malformed::Hex.words(),
        "the frame is neither - nor an even number of hex digits"
    );
}
