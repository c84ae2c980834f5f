// The limits of a sheet, and the market list of one that is passed.
use crate::expect::{book_passes, book_tells, list_passes, list_tells};
use lists::list_row::ListRow;
use lists::list_sheet::read_list;
use lists::market_list::MarketList;
use sheets::fault::Layer;
use std::alloc::{AllocError, Global};
use std::test::Fail;

// 256 rows that begin alike, each with two more bytes, ascending.
fn rows_of_256(heap: Global, letter: &[u8], between: &[u8]) -> Result<Vec<u8>, AllocError> {
    let mut text = Vec::new(heap);
    for high in 0..16u8 {
        for low in 0..16u8 {
            text.extend_from_slice(letter)?;
            text.push(b'A' + high)?;
            text.extend_from_slice(between)?;
            text.push(b'A' + low)?;
            text.push(b'\n')?;
        }
    }
    Ok(text)
}

#[test]
fn a_list_has_at_most_256_securities(rt: HostRuntime) -> Result<(), Fail> {
    let mut text = rows_of_256(rt.alloc(), b"S,", b"")?;
    list_tells(&rt, text.as_slice(), Layer::Sheet, 208, 257, 0)?;
    text.extend_from_slice(b"L,xy\n")?;
    list_passes(&rt, text.as_slice(), 257)?;
    text.extend_from_slice(b"S,Z\n")?;
    list_tells(&rt, text.as_slice(), Layer::Sheet, 207, 258, 0)
}

#[test]
fn a_security_out_of_order_is_told_before_one_too_many(rt: HostRuntime) -> Result<(), Fail> {
    let mut text = rows_of_256(rt.alloc(), b"S,", b"")?;
    text.extend_from_slice(b"S,A\n")?;
    list_tells(&rt, text.as_slice(), Layer::Sheet, 206, 257, 0)
}

#[test]
fn a_list_has_at_most_16_lines(rt: HostRuntime) -> Result<(), Fail> {
    list_passes(
        &rt,
        b"S,A\nL,01\nL,02\nL,03\nL,04\nL,05\nL,06\nL,07\nL,08\nL,09\nL,10\nL,11\nL,12\nL,13\nL,14\nL,15\nL,16\n",
        17,
    )?;
    list_tells(
        &rt,
        b"L,01\nL,02\nL,03\nL,04\nL,05\nL,06\nL,07\nL,08\nL,09\nL,10\nL,11\nL,12\nL,13\nL,14\nL,15\nL,16\nL,17\n",
        Layer::Sheet,
        207,
        17,
        0,
    )?;
    list_tells(
        &rt,
        b"L,01\nL,02\nL,03\nL,04\nL,05\nL,06\nL,07\nL,08\nL,09\nL,10\nL,11\nL,12\nL,13\nL,14\nL,15\nL,16\nL,01\n",
        Layer::Sheet,
        206,
        17,
        0,
    )
}

#[test]
fn a_book_has_at_most_256_rows(rt: HostRuntime) -> Result<(), Fail> {
    let mut text = rows_of_256(rt.alloc(), b"N,", b",")?;
    book_passes(&rt, text.as_slice(), 256)?;
    text.extend_from_slice(b"E,@\n")?;
    book_tells(&rt, text.as_slice(), Layer::Sheet, 207, 257, 0)
}

#[test]
fn a_market_list_has_its_securities_and_lines_in_order(rt: HostRuntime) -> Result<(), Fail> {
    let mut table = [ListRow::Line([0, 0]); 8];
    match read_list(b"L,zz\nS,A\nS,AB\nL,aa\nS,B\n", &mut table) {
        Ok(count) => {
            let market = MarketList::of_rows(&table[0..count]);
            assert_eq!(rt; market.security_count(), 3);
            assert_eq!(rt; market.symbols().len(), 3);
            assert_eq!(rt; market.symbol(0), Some(*b"A          "));
            assert_eq!(rt; market.symbol(1), Some(*b"AB         "));
            assert_eq!(rt; market.symbol(2), Some(*b"B          "));
            assert_eq!(rt; market.symbol(3), None);
            assert_eq!(rt; market.line_count(), 2);
            assert_eq!(rt; market.originators().len(), 2);
            assert_eq!(rt; market.originator(0), Some(*b"zz"));
            assert_eq!(rt; market.originator(1), Some(*b"aa"));
            assert_eq!(rt; market.originator(2), None);
            Ok(())
        }
        Err(_) => Err(Fail::new("the sheet was refused")),
    }
}
