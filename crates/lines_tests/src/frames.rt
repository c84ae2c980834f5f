// Frames by their bytes: how short, how long, and of which kind they may be.
use crate::mass_rows::judged_action;
use crate::told::{CONTEXT, PASSED_OVER, TAKEN, cut, judged};
use crate::trade_rows::judged_report;
use crate::{mass_rows, trade_rows};
use std::test::Fail;

#[test]
fn a_frame_without_a_kind_is_cut(rt: HostRuntime) -> Result<(), Fail> {
    assert_eq!(rt; judged(b"", &CONTEXT)?, cut(0, 101));
    assert_eq!(rt; judged(b"1", &CONTEXT)?, cut(0, 101));
    assert_eq!(rt; judged(b"1T", &CONTEXT)?, cut(0, 101));
    assert_eq!(rt; judged(b"2AU", &CONTEXT)?, cut(0, 101));
    assert_eq!(rt; judged(b"1TI", &CONTEXT)?, cut(0, 102));
    assert_eq!(rt; judged(b"1te", &CONTEXT)?, cut(0, 102));
    assert_eq!(rt; judged(b"1TE", &CONTEXT)?, cut(0, 103));
    assert_eq!(rt; judged(b"1AU", &CONTEXT)?, cut(0, 103));
    Ok(())
}

#[test]
fn every_length_of_a_report(rt: HostRuntime) -> Result<(), Fail> {
    for length in 0..80 {
        let mut sent = trade_rows::SOUND;
        sent.length = length;
        let expected = match length {
            0..=2 => cut(0, 101),
            72 => TAKEN,
            _ => cut(0, 103),
        };
        assert_eq!(rt; judged_report(&rt, &sent)?, expected);
    }
    Ok(())
}

#[test]
fn every_length_of_an_action(rt: HostRuntime) -> Result<(), Fail> {
    for length in 0..80 {
        let mut sent = mass_rows::SOUND;
        sent.length = length;
        let expected = match length {
            0..=2 => cut(0, 101),
            60 => TAKEN,
            _ => cut(0, 103),
        };
        assert_eq!(rt; judged_action(&sent)?, expected);
    }
    Ok(())
}

#[test]
fn both_bytes_of_the_originator_count(rt: HostRuntime) -> Result<(), Fail> {
    for originator in [*b"QV", *b"RU", *b"UQ", *b"qu"] {
        let mut sent = trade_rows::SOUND;
        sent.report.originator = originator;
        assert_eq!(rt; judged_report(&rt, &sent)?, cut(0, 104));
    }
    Ok(())
}

#[test]
fn the_feed_sequence_is_the_expected_one(rt: HostRuntime) -> Result<(), Fail> {
    let cases = [
        (0, PASSED_OVER),
        (4, PASSED_OVER),
        (5, TAKEN),
        (6, cut(0, 105)),
        (u64::MAX, cut(0, 105)),
    ];
    for (sequence, expected) in cases {
        let mut report = trade_rows::SOUND;
        report.context.expected_sequence = 5;
        report.report.feed_sequence = sequence;
        assert_eq!(rt; judged_report(&rt, &report)?, expected);
        let mut action = mass_rows::SOUND;
        action.context.expected_sequence = 5;
        action.action.feed_sequence = sequence;
        assert_eq!(rt; judged_action(&action)?, expected);
    }
    Ok(())
}
