// The matrix, byte by byte, and the precedence among the bytes of a condition.
use conditions::condition::{counts, effects};
use conditions::matrix::{Effects, Says, byte_effects};
use std::process::Abort;

// The columns in the order of the matrix: consolidated high/low and last, market center high/low and last, volume.
fn columns(said: [Says; 5]) -> Effects {
    let [
        consolidated_high_low,
        consolidated_last,
        center_high_low,
        center_last,
        volume,
    ] = said;
    Effects {
        consolidated_high_low,
        consolidated_last,
        center_high_low,
        center_last,
        volume,
    }
}

fn expected(byte: u8) -> Effects {
    match byte {
        b'@' | b' ' | b'1' | b'5' | b'6' => columns([
            Says::Yes,
            Says::Yes,
            Says::Yes,
            Says::Yes,
            Says::Yes,
        ]),
        b'A' | b'B' | b'D' | b'F' | b'K' => columns([
            Says::Yes,
            Says::Yes,
            Says::Yes,
            Says::Yes,
            Says::Yes,
        ]),
        b'L' | b'O' | b'S' | b'X' | b'Y' => columns([
            Says::Yes,
            Says::Yes,
            Says::Yes,
            Says::Yes,
            Says::Yes,
        ]),
        b'G' | b'P' | b'Z' | b'4' => columns([
            Says::Yes,
            Says::First,
            Says::Yes,
            Says::First,
            Says::Yes,
        ]),
        b'C' | b'H' | b'I' | b'N' | b'R' => columns([
            Says::No,
            Says::No,
            Says::No,
            Says::No,
            Says::Yes,
        ]),
        b'T' | b'U' | b'V' | b'W' | b'7' => columns([
            Says::No,
            Says::No,
            Says::No,
            Says::No,
            Says::Yes,
        ]),
        b'M' => columns([Says::No, Says::No, Says::Yes, Says::Yes, Says::No]),
        b'Q' => columns([Says::No, Says::No, Says::Yes, Says::No, Says::No]),
        b'9' => columns([Says::Yes, Says::Yes, Says::No, Says::No, Says::No]),
        _ => columns([Says::No, Says::No, Says::No, Says::No, Says::No]),
    }
}

#[test]
fn every_byte_stands_in_its_row(rt: HostRuntime) {
    for byte in 0..=255u8 {
        assert!(rt; byte_effects(byte) == expected(byte));
    }
}

// What a condition says to either last, and whether it counts for volume.
fn check_said(rt: &impl Abort, condition: &[u8; 4], last: Says, counted: bool) {
    let said = effects(*condition);
    assert!(rt; said.consolidated_last == last && said.center_last == last);
    assert!(rt; counts(*condition) == counted);
}

#[test]
fn no_beats_first_and_first_beats_yes(rt: HostRuntime) {
    check_said(&rt, b"@   ", Says::Yes, true);
    check_said(&rt, b"@  Z", Says::First, true);
    check_said(&rt, b"Z  @", Says::First, true);
    check_said(&rt, b" ZP ", Says::First, true);
    check_said(&rt, b"@C  ", Says::No, true);
    check_said(&rt, b" 7 @", Says::No, true);
    check_said(&rt, b"ZC  ", Says::No, true);
    check_said(&rt, b" C Z", Says::No, true);
    check_said(&rt, b"@  E", Says::No, false);
    check_said(&rt, b"8 C ", Says::No, false);
}

#[test]
fn official_prices_do_not_mix(rt: HostRuntime) {
    assert!(rt; effects(*b"M  9") == columns([Says::No, Says::No, Says::No, Says::No, Says::No]));
    assert!(rt; effects(*b"@M  ") == columns([Says::No, Says::No, Says::Yes, Says::Yes, Says::No]));
    assert!(rt;
        effects(*b"ZM  ") == columns([Says::No, Says::No, Says::Yes, Says::First, Says::No])
    );
}
