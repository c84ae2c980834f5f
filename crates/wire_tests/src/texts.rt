// Printable bytes, symbols and decimal numbers.
use text::decimal::put_decimal;
use text::printable::{all_printable, is_printable};
use text::symbol::{padded, precedes, unpadded};

const PRINTABLE: &[u8] =
    b" !\"#$%&'()*+,-./0123456789:;<=>?@ABCDEFGHIJKLMNOPQRSTUVWXYZ[\\]^_`abcdefghijklmnopqrstuvwxyz{|}~";

#[test]
fn ninety_five_bytes_are_printable(rt: HostRuntime) {
    assert_eq!(rt; PRINTABLE.len(), 95);
    assert!(rt; all_printable(PRINTABLE));
    let mut count = 0usize;
    for byte in 0..=255u8 {
        if is_printable(byte) {
            count = count.saturating_add(1);
        }
    }
    assert_eq!(rt; count, 95);
    assert!(rt; all_printable(b""));
    assert!(rt; !all_printable(b"A\x1f"));
    assert!(rt; !all_printable(b"\x7fA"));
}

#[test]
fn symbols_are_padded_to_eleven(rt: HostRuntime) {
    assert!(rt; padded(b"A") == Some(*b"A          "));
    assert!(rt; padded(b"ABCDEFGHIJK") == Some(*b"ABCDEFGHIJK"));
    assert!(rt; padded(b"").is_none());
    assert!(rt; padded(b"ABCDEFGHIJKL").is_none());
    assert!(rt; unpadded(b"ABC        ") == b"ABC".as_slice());
    assert!(rt; unpadded(b"A B        ") == b"A B".as_slice());
    assert!(rt; unpadded(b"           ") == b"".as_slice());
    assert!(rt; unpadded(b"ABCDEFGHIJK") == b"ABCDEFGHIJK".as_slice());
}

#[test]
fn symbols_go_by_their_first_difference(rt: HostRuntime) {
    assert!(rt; precedes(b"A          ", b"AB         "));
    assert!(rt; precedes(b"AB         ", b"B          "));
    assert!(rt; precedes(b"A.B        ", b"AB         "));
    assert!(rt; !precedes(b"AB         ", b"AB         "));
    assert!(rt; !precedes(b"B          ", b"AB         "));
    assert!(rt; !precedes(b"AB         ", b"A          "));
}

#[test]
fn decimals_have_no_leading_zeros(rt: HostRuntime) {
    let mut buffer = *b"........................";
    assert_eq!(rt; put_decimal(&mut buffer, 0, 0), Some(1));
    assert_eq!(rt; put_decimal(&mut buffer, 2, 10500000), Some(10));
    assert!(rt; buffer == *b"0.10500000..............");
    assert_eq!(rt; put_decimal(&mut buffer, 4, 18446744073709551615), Some(24));
    assert!(rt; buffer == *b"0.1018446744073709551615");
    assert_eq!(rt; put_decimal(&mut buffer, 22, 100), None);
    assert_eq!(rt; put_decimal(&mut buffer, 25, 1), None);
    assert!(rt; buffer == *b"0.1018446744073709551615");
}
