// Sheets: what reports make of them, what a sound one is, and when a report is refused.
use stats::plain_sheet::PlainSheet;
use stats::record::{MarketCenterRecord, QuoteMark};
use stats::sale::{LastSale, LineSale, Sale};
use stats::sheet::{Sheet, VolumeFull};
use std::mem::size_of;
use std::process::Abort;
use std::test::Fail;

fn sale(condition: &[u8; 4], price: u64, volume: u32) -> Sale {
    Sale {
        condition: *condition,
        price,
        volume,
    }
}

fn by(line: u8, sale: Sale) -> LineSale {
    LineSale { line, sale }
}

fn check_center(rt: &impl Abort, sales: &[Sale], want: PlainSheet<u64>) -> Result<(), Fail> {
    assert_eq!(rt; PlainSheet::from(&Sheet::of(sales)?), want);
    Ok(())
}

fn check_consolidated(
    rt: &impl Abort,
    reports: &[LineSale],
    want: PlainSheet<LastSale>,
) -> Result<(), Fail> {
    assert_eq!(rt; PlainSheet::from(&Sheet::of(reports)?), want);
    Ok(())
}

fn plain<Last>(
    high: Option<u64>,
    low: Option<u64>,
    last: Option<Last>,
    volume: u64,
) -> PlainSheet<Last> {
    PlainSheet {
        high,
        low,
        last,
        volume,
    }
}

fn at(price: u64, line: u8) -> Option<LastSale> {
    Some(LastSale { price, line })
}

#[test]
fn first_sets_a_center_last_only_once(rt: HostRuntime) -> Result<(), Fail> {
    let early = sale(b"Z   ", 10, 1);
    let late = sale(b"P   ", 30, 4);
    let regular = sale(b"@   ", 20, 2);
    check_center(&rt, &[], plain(None, None, None, 0))?;
    check_center(&rt, &[early, late], plain(Some(30), Some(10), Some(10), 5))?;
    check_center(
        &rt,
        &[early, regular],
        plain(Some(20), Some(10), Some(20), 3),
    )?;
    check_center(
        &rt,
        &[regular, late],
        plain(Some(30), Some(20), Some(20), 6),
    )?;
    check_center(
        &rt,
        &[early, regular, late],
        plain(Some(30), Some(10), Some(20), 7),
    )
}

#[test]
fn the_consolidated_last_names_its_line(rt: HostRuntime) -> Result<(), Fail> {
    let early = by(3, sale(b"Z   ", 10, 1));
    let late = by(5, sale(b"4   ", 30, 4));
    let regular = by(7, sale(b"    ", 20, 2));
    check_consolidated(&rt, &[early, late], plain(Some(30), Some(10), at(10, 3), 5))?;
    check_consolidated(&rt, &[late, early], plain(Some(30), Some(10), at(30, 5), 5))?;
    check_consolidated(
        &rt,
        &[early, regular, late],
        plain(Some(30), Some(10), at(20, 7), 7),
    )
}

#[test]
fn official_prices_count_on_one_side(rt: HostRuntime) -> Result<(), Fail> {
    let close = sale(b"M   ", 50, 100);
    let opening = sale(b"Q   ", 60, 100);
    let correction = sale(b"9   ", 70, 100);
    check_center(&rt, &[close], plain(Some(50), Some(50), Some(50), 0))?;
    check_center(&rt, &[opening], plain(Some(60), Some(60), None, 0))?;
    check_center(&rt, &[correction], plain(None, None, None, 0))?;
    check_consolidated(
        &rt,
        &[by(1, close), by(2, opening)],
        plain(None, None, None, 0),
    )?;
    check_consolidated(
        &rt,
        &[by(15, correction)],
        plain(Some(70), Some(70), at(70, 15), 0),
    )
}

#[test]
fn price_nothing_is_a_price(rt: HostRuntime) -> Result<(), Fail> {
    let free = sale(b"@   ", 0, 8);
    let odd_lot = sale(b"@  I", 5, 9);
    check_center(&rt, &[free, odd_lot], plain(Some(0), Some(0), Some(0), 17))
}

fn passes(high: Option<u64>, low: Option<u64>) -> bool {
    Sheet::try_from(plain(high, low, Some(4u64), 9)).is_ok()
}

#[test]
fn a_sound_sheet_has_both_ends_or_neither(rt: HostRuntime) {
    assert!(rt; passes(Some(7), Some(7)));
    assert!(rt; passes(Some(7), Some(6)));
    assert!(rt; passes(None, None));
    assert!(rt; !passes(Some(6), Some(7)));
    assert!(rt; !passes(Some(7), None));
    assert!(rt; !passes(None, Some(7)));
}

#[test]
fn a_full_volume_refuses_and_alters_nothing(rt: HostRuntime) -> Result<(), Fail> {
    let held = plain(None, None, Some(4u64), u64::MAX - 10);
    let mut sheet = Sheet::try_from(held)?;
    assert_eq!(rt; sheet.note(sale(b"@   ", 5, 11)), Err(VolumeFull));
    assert_eq!(rt; PlainSheet::from(&sheet), held);
    assert_eq!(rt; sheet.note(sale(b"@   ", 5, 10)), Ok(()));
    assert_eq!(rt; PlainSheet::from(&sheet).volume, u64::MAX);
    assert!(rt; sheet.note(sale(b"E   ", 6, 1)) == Ok(()));
    Ok(())
}

#[test]
fn a_record_is_small_and_begins_at_trade_1(rt: HostRuntime) {
    assert!(rt; size_of::<MarketCenterRecord>() <= 64);
    let record = MarketCenterRecord::fresh();
    assert!(rt; record.next_trade_id == 1 && record.quote_mark == QuoteMark::Welcome);
}
