// Readings of the tables that a frame's answer turns on.
use crate::mass_rows::judged_action;
use crate::told::{PASSED_OVER, TAKEN, cut, judged_by, rejected};
use crate::trade_rows::judged_report;
use crate::{mass_rows, trade_rows};
use books::standard_book::StandardBook;
use rows::context::Phase;
use std::test::Fail;

// An unprintable flag would cut, but the symbol's row comes first.
#[test]
fn rows_that_cut_are_not_tried_first(rt: HostRuntime) -> Result<(), Fail> {
    let mut unlisted = trade_rows::SOUND;
    unlisted.context.security = None;
    unlisted.report.exempt_flag = 7;
    assert_eq!(rt; judged_report(&rt, &unlisted)?, rejected(26, 2));
    let mut barred = trade_rows::SOUND;
    barred.report.condition = *b"@F  ";
    barred.report.side = 255;
    assert_eq!(rt; judged_report(&rt, &barred)?, rejected(31, 10));
    Ok(())
}

#[test]
fn the_day_is_asked_last(rt: HostRuntime) -> Result<(), Fail> {
    for phase in [Phase::Fresh, Phase::Closed] {
        let mut report = trade_rows::SOUND;
        report.context.phase = phase;
        assert_eq!(rt; judged_report(&rt, &report)?, rejected(11, 15));
        report.report.volume = 0;
        assert_eq!(rt; judged_report(&rt, &report)?, rejected(29, 14));
        let mut action = mass_rows::SOUND;
        action.context.phase = phase;
        assert_eq!(rt; judged_action(&action)?, rejected(11, 6));
        action.action.action_time = 999;
        assert_eq!(rt; judged_action(&action)?, rejected(60, 5));
    }
    Ok(())
}

// A frame sent again is not judged any further, whatever it holds.
#[test]
fn a_frame_passed_over_is_not_judged(rt: HostRuntime) -> Result<(), Fail> {
    let mut report = trade_rows::SOUND;
    report.context.expected_sequence = 2;
    report.report.symbol = *b"\x00\x00\x00\x00\x00\x00\x00\x00\x00\x00\x00";
    report.context.phase = Phase::Closed;
    assert_eq!(rt; judged_report(&rt, &report)?, PASSED_OVER);
    report.report.originator = *b"JU";
    assert_eq!(rt; judged_report(&rt, &report)?, cut(0, 104));
    Ok(())
}

// Neither symbol of an action has to be listed, nor the first to stand before the last.
#[test]
fn an_action_may_reach_nothing(rt: HostRuntime) -> Result<(), Fail> {
    let mut action = mass_rows::SOUND;
    action.context.security = None;
    action.action.first = *b"ZZ         ";
    action.action.last = *b"A          ";
    assert_eq!(rt; judged_action(&action)?, TAKEN);
    Ok(())
}

#[test]
fn the_standard_book_answers_for_itself(rt: HostRuntime) {
    let mut sent = trade_rows::SOUND;
    sent.report.condition = *b"@O  ";
    let mut frame = [0; 72];
    assert!(rt; sent.report.write(&mut frame).is_ok());
    assert_eq!(rt; judged_by(&StandardBook, &frame, &sent.context), TAKEN);
    sent.report.condition = *b"@F  ";
    assert!(rt; sent.report.write(&mut frame).is_ok());
    assert_eq!(rt;
        judged_by(&StandardBook, &frame, &sent.context),
        rejected(31, 10)
    );
    sent.report.exempt_flag = b'X';
    assert!(rt; sent.report.write(&mut frame).is_ok());
    assert_eq!(rt; judged_by(&StandardBook, &frame, &sent.context), TAKEN);
}
