// The letters of the actions, the ends of a range, and what an action makes of a mark.
use marks::range::SymbolRange;
use marks::trading_action::{NoAction, TradingAction};
use stats::record::QuoteMark;

#[test]
fn an_action_goes_by_its_letter(rt: HostRuntime) {
    assert_eq!(rt; u8::from(TradingAction::Resume), b'Q');
    assert_eq!(rt; u8::from(TradingAction::WipeOut), b'W');
    assert_eq!(rt; u8::from(TradingAction::Emergency), b'E');
    assert_eq!(rt; TradingAction::try_from(b'Q'), Ok(TradingAction::Resume));
    assert_eq!(rt; TradingAction::try_from(b'W'), Ok(TradingAction::WipeOut));
    assert_eq!(rt; TradingAction::try_from(b'E'), Ok(TradingAction::Emergency));
    assert_eq!(rt; TradingAction::try_from(b'q'), Err(NoAction));
    assert_eq!(rt; TradingAction::try_from(b' '), Err(NoAction));
}

#[test]
fn a_range_reaches_both_of_its_ends(rt: HostRuntime) {
    let range = SymbolRange {
        first: *b"AB         ",
        last: *b"B          ",
    };
    assert!(rt; !range.reaches(b"A          "));
    assert!(rt; range.reaches(b"AB         "));
    assert!(rt; range.reaches(b"AZZZZZZZZZZ"));
    assert!(rt; range.reaches(b"B          "));
    assert!(rt; !range.reaches(b"B         !"));
}

#[test]
fn an_action_is_applied_by_the_mark_that_stands(rt: HostRuntime) {
    assert!(rt; TradingAction::Emergency.is_applied(QuoteMark::Welcome));
    assert!(rt; !TradingAction::Emergency.is_applied(QuoteMark::Barred));
    assert!(rt; !TradingAction::Resume.is_applied(QuoteMark::Welcome));
    assert!(rt; TradingAction::Resume.is_applied(QuoteMark::Barred));
    assert!(rt; TradingAction::WipeOut.is_applied(QuoteMark::Welcome));
    assert!(rt; TradingAction::WipeOut.is_applied(QuoteMark::Barred));
}

#[test]
fn a_wipe_out_leaves_the_mark(rt: HostRuntime) {
    assert_eq!(rt;
        TradingAction::Emergency.mark_after(QuoteMark::Welcome),
        QuoteMark::Barred
    );
    assert_eq!(rt;
        TradingAction::Resume.mark_after(QuoteMark::Barred),
        QuoteMark::Welcome
    );
    assert_eq!(rt;
        TradingAction::WipeOut.mark_after(QuoteMark::Welcome),
        QuoteMark::Welcome
    );
    assert_eq!(rt;
        TradingAction::WipeOut.mark_after(QuoteMark::Barred),
        QuoteMark::Barred
    );
}
