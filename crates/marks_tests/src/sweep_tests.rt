// Actions over the records of a line.
use crate::five::five;
use marks::range::SymbolRange;
use marks::sweep::Sweep;
use marks::trading_action::TradingAction;
use stats::record::{MarketCenterRecord, QuoteMark};
use std::process::Abort;
use std::test::Fail;

fn from_to(first: &[u8; 11], last: &[u8; 11]) -> SymbolRange {
    SymbolRange {
        first: *first,
        last: *last,
    }
}

fn sweep(action: TradingAction, range: SymbolRange) -> Sweep {
    Sweep { action, range }
}

// A letter for each record: `-` where quotes are welcome, `x` where they are barred.
fn check_marks(rt: &impl Abort, records: &[MarketCenterRecord], letters: &[u8]) {
    assert_eq!(rt; records.len(), letters.len());
    for (record, letter) in records.iter().zip(letters) {
        let want = if *letter == b'x' {
            QuoteMark::Barred
        } else {
            QuoteMark::Welcome
        };
        assert_eq!(rt; record.quote_mark, want);
    }
}

#[test]
fn an_action_is_counted_where_it_is_applied(rt: HostRuntime) -> Result<(), Fail> {
    let market = five()?;
    let mut records = [MarketCenterRecord::fresh(); 5];
    let front = from_to(b"A          ", b"B          ");
    assert_eq!(rt;
        sweep(TradingAction::Emergency, front).apply(&market, &mut records, 0),
        Some(4)
    );
    check_marks(&rt, &records, b"xxxx-");
    assert_eq!(rt;
        sweep(TradingAction::Emergency, front).apply(&market, &mut records, 0),
        Some(0)
    );
    check_marks(&rt, &records, b"xxxx-");
    let middle = from_to(b"AB         ", b"ABC        ");
    assert_eq!(rt;
        sweep(TradingAction::Resume, middle).apply(&market, &mut records, 0),
        Some(2)
    );
    check_marks(&rt, &records, b"x--x-");
    let all = from_to(b"           ", b"ZZZZZZZZZZZ");
    assert_eq!(rt;
        sweep(TradingAction::WipeOut, all).apply(&market, &mut records, 0),
        Some(5)
    );
    check_marks(&rt, &records, b"x--x-");
    Ok(())
}

#[test]
fn a_range_from_above_its_last_reaches_nothing(rt: HostRuntime) -> Result<(), Fail> {
    let market = five()?;
    let mut records = [MarketCenterRecord::fresh(); 5];
    let range = from_to(b"B          ", b"A          ");
    assert_eq!(rt;
        sweep(TradingAction::WipeOut, range).apply(&market, &mut records, 0),
        Some(0)
    );
    assert_eq!(rt;
        sweep(TradingAction::Emergency, range).apply(&market, &mut records, 0),
        Some(0)
    );
    check_marks(&rt, &records, b"-----");
    Ok(())
}

#[test]
fn only_the_records_of_the_line_change(rt: HostRuntime) -> Result<(), Fail> {
    let market = five()?;
    let mut records = [MarketCenterRecord::fresh(); 12];
    let range = from_to(b"AB         ", b"BA         ");
    assert_eq!(rt;
        sweep(TradingAction::Emergency, range).apply(&market, &mut records, 5),
        Some(4)
    );
    check_marks(&rt, &records, b"------xxxx--");
    assert_eq!(rt;
        sweep(TradingAction::Emergency, range).apply(&market, &mut records, 7),
        Some(2)
    );
    check_marks(&rt, &records, b"------xxxxxx");
    Ok(())
}

#[test]
fn a_line_without_all_its_records_is_refused(rt: HostRuntime) -> Result<(), Fail> {
    let market = five()?;
    let mut records = [MarketCenterRecord::fresh(); 12];
    let all = from_to(b"           ", b"ZZZZZZZZZZZ");
    assert_eq!(rt;
        sweep(TradingAction::Emergency, all).apply(&market, &mut records, 8),
        None
    );
    assert_eq!(rt;
        sweep(TradingAction::Emergency, all).apply(&market, &mut records, usize::MAX),
        None
    );
    check_marks(&rt, &records, b"------------");
    Ok(())
}

#[test]
fn an_action_leaves_the_sheet_and_the_trade_id(rt: HostRuntime) -> Result<(), Fail> {
    let market = five()?;
    let mut records = [MarketCenterRecord::fresh(); 5];
    records[1].next_trade_id = 7;
    records[1].sheet.volume = 300;
    let one = from_to(b"AB         ", b"AB         ");
    assert_eq!(rt;
        sweep(TradingAction::Emergency, one).apply(&market, &mut records, 0),
        Some(1)
    );
    check_marks(&rt, &records, b"-x---");
    assert_eq!(rt; records[1].next_trade_id, 7);
    assert_eq!(rt; records[1].sheet.volume, 300);
    Ok(())
}
