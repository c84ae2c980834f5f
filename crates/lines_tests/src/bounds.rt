// Fields up to their bounds: every byte, every number of days, the ends of a time.
use crate::mass_rows::{SentAction, judged_action};
use crate::told::{TAKEN, Told, cut, rejected};
use crate::trade_rows::{SentReport, judged_report, judged_report_by};
use crate::{mass_rows, trade_rows};
use std::test::Fail;

// What a byte is told: unprintable, or printable and none of those accepted.
fn told_of_byte(byte: u8, accepted: &[u8], unprintable: Told, other: Told) -> Told {
    if byte < 32 || byte > 126 {
        return unprintable;
    }
    for one in accepted {
        if *one == byte {
            return TAKEN;
        }
    }
    other
}

// A sound report of another security, which is taken for listed.
fn report_of(symbol: [u8; 11]) -> SentReport {
    let mut sent = trade_rows::SOUND;
    sent.report.symbol = symbol;
    sent
}

// A sound action up to another security.
fn action_up_to(symbol: [u8; 11]) -> SentAction {
    let mut sent = mass_rows::SOUND;
    sent.action.last = symbol;
    sent
}

#[test]
fn every_byte_of_a_symbol(rt: HostRuntime) -> Result<(), Fail> {
    for byte in 0..=255u8 {
        let is_printable = byte >= 32 && byte <= 126;
        let symbol = [
            byte, b'B', b'C', b' ', b' ', b' ', b' ', b' ', b' ', b' ', byte,
        ];
        let expected = if is_printable { TAKEN } else { cut(26, 1) };
        assert_eq!(rt; judged_report(&rt, &report_of(symbol))?, expected);
        let expected = if is_printable { TAKEN } else { cut(26, 2) };
        assert_eq!(rt; judged_action(&action_up_to(symbol))?, expected);
    }
    Ok(())
}

#[test]
fn every_flag_side_and_action(rt: HostRuntime) -> Result<(), Fail> {
    for byte in 0..=255u8 {
        let mut flagged = trade_rows::SOUND;
        flagged.report.exempt_flag = byte;
        assert_eq!(rt;
            judged_report(&rt, &flagged)?,
            told_of_byte(byte, b" X", cut(87, 5), rejected(87, 6))
        );
        let mut sided = trade_rows::SOUND;
        sided.report.side = byte;
        assert_eq!(rt;
            judged_report(&rt, &sided)?,
            told_of_byte(byte, b"BS", cut(33, 12), rejected(33, 13))
        );
        let mut acted = mass_rows::SOUND;
        acted.action.action = byte;
        assert_eq!(rt;
            judged_action(&acted)?,
            told_of_byte(byte, b"QWE", cut(88, 3), rejected(88, 4))
        );
    }
    Ok(())
}

// What a byte at one place of a condition is told, where some are accepted at that place. R asks for days, and is told apart.
fn told_of_value(byte: u8, own: &[u8]) -> Told {
    match byte {
        b'@' | b'R' | b'F' | b'T' | b'I' | b'P' | b' ' => {
            told_of_byte(byte, own, cut(31, 7), rejected(31, 9))
        }
        _ => told_of_byte(byte, b"", cut(31, 7), rejected(31, 8)),
    }
}

// An exempt trade with a condition.
fn exempt(condition: [u8; 4]) -> SentReport {
    let mut sent = trade_rows::SOUND;
    sent.report.exempt_flag = b'X';
    sent.report.condition = condition;
    sent
}

#[test]
fn every_byte_of_a_condition(rt: HostRuntime) -> Result<(), Fail> {
    for byte in 0..=255u8 {
        let first = if byte == b'R' {
            rejected(32, 11)
        } else {
            told_of_value(byte, b"@")
        };
        assert_eq!(rt;
            judged_report(&rt, &exempt([byte, b' ', b' ', b' ']))?,
            first
        );
        let second = told_of_value(byte, b" F");
        assert_eq!(rt;
            judged_report(&rt, &exempt([b'@', byte, b' ', b' ']))?,
            second
        );
        let third = told_of_value(byte, b" T");
        assert_eq!(rt;
            judged_report(&rt, &exempt([b'@', b' ', byte, b' ']))?,
            third
        );
        let fourth = told_of_value(byte, b" IP");
        assert_eq!(rt;
            judged_report(&rt, &exempt([b'@', b' ', b' ', byte]))?,
            fourth
        );
    }
    Ok(())
}

// A book that accepts R in every bucket.
const SHEET: &[u8] = b"E, \nD,B\nC,1,@\nC,1,R\nC,2, \nC,2,R\nC,3, \nC,3,R\nC,4, \nC,4,R\n";

#[test]
fn seller_days_go_with_an_r_at_any_place(rt: HostRuntime) -> Result<(), Fail> {
    for days in [0, 1, 2, 3, 59, 60, 61, 258, 15360, 65535] {
        let mut sent = trade_rows::SOUND;
        sent.report.seller_days = days;
        let without = if days == 0 { TAKEN } else { rejected(32, 11) };
        sent.report.condition = *b"@   ";
        assert_eq!(rt; judged_report_by(&rt, SHEET, &sent)?, without);
        let with = if days >= 2 && days <= 60 {
            TAKEN
        } else {
            rejected(32, 11)
        };
        for condition in [*b"R   ", *b"@R  ", *b"@ R ", *b"@  R", *b"RRRR"] {
            sent.report.condition = condition;
            assert_eq!(rt; judged_report_by(&rt, SHEET, &sent)?, with);
        }
    }
    Ok(())
}

#[test]
fn the_trade_id_is_the_expected_one(rt: HostRuntime) -> Result<(), Fail> {
    let cases = [
        (0, rejected(92, 4)),
        (6, rejected(92, 4)),
        (7, TAKEN),
        (8, rejected(92, 3)),
        (u32::MAX, rejected(92, 3)),
    ];
    for (trade_id, expected) in cases {
        let mut sent = trade_rows::SOUND;
        sent.context.expected_trade_id = 7;
        sent.report.trade_id = trade_id;
        assert_eq!(rt; judged_report(&rt, &sent)?, expected);
    }
    Ok(())
}

#[test]
fn any_volume_but_0_is_taken(rt: HostRuntime) -> Result<(), Fail> {
    let cases = [
        (0, rejected(29, 14)),
        (1, TAKEN),
        (256, TAKEN),
        (u32::MAX, TAKEN),
    ];
    for (volume, expected) in cases {
        let mut sent = trade_rows::SOUND;
        sent.report.volume = volume;
        assert_eq!(rt; judged_report(&rt, &sent)?, expected);
    }
    Ok(())
}

#[test]
fn both_ends_of_the_action_time_are_in_it(rt: HostRuntime) -> Result<(), Fail> {
    let cases = [
        (0, rejected(60, 5)),
        (999, rejected(60, 5)),
        (1000, TAKEN),
        (5000, TAKEN),
        (5001, rejected(60, 5)),
        (u64::MAX, rejected(60, 5)),
    ];
    for (action_time, expected) in cases {
        let mut sent = mass_rows::SOUND;
        sent.action.action_time = action_time;
        assert_eq!(rt; judged_action(&sent)?, expected);
    }
    Ok(())
}
