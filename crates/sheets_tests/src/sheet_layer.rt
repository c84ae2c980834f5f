// Rows: their order, their number, and the slots that they are read into.
use crate::expect::{book_passes, book_tells, list_passes, list_tells, passes, tells};
use codes::book_row::BookRow;
use codes::book_sheet::read_book;
use lists::list_row::ListRow;
use lists::list_sheet::read_list;
use sheets::bucket::Bucket;
use sheets::fault::Layer;
use std::test::Fail;

#[test]
fn symbols_ascend_from_the_last_before_them(rt: HostRuntime) -> Result<(), Fail> {
    list_tells(&rt, b"S,B\nS,A\n", Layer::Sheet, 206, 2, 0)?;
    list_tells(&rt, b"S,A\nS,A\n", Layer::Sheet, 206, 2, 0)?;
    list_tells(&rt, b"S,B\nL,xy\nS,A\n", Layer::Sheet, 206, 3, 0)?;
    // A space stands before every visible byte, so that a shorter symbol stands before its extensions.
    list_tells(&rt, b"S,A!\nS,A\n", Layer::Sheet, 206, 2, 0)?;
    list_passes(&rt, b"S,A\nS,A!\nL,xy\nS,B\n", 4)
}

#[test]
fn no_originator_stands_twice(rt: HostRuntime) -> Result<(), Fail> {
    list_tells(&rt, b"L,xy\nL,xy\n", Layer::Sheet, 206, 2, 0)?;
    list_tells(&rt, b"L,xy\nS,A\nL,yx\nL,xy\n", Layer::Sheet, 206, 4, 0)?;
    list_passes(&rt, b"L,xy\nL,yx\nL,xx\nS,xy\n", 4)
}

#[test]
fn no_book_row_stands_twice(rt: HostRuntime) -> Result<(), Fail> {
    book_tells(&rt, b"E,@\nE,@\n", Layer::Sheet, 206, 2, 0)?;
    book_tells(&rt, b"C,1,@\nC,2,@\nC,1,@\n", Layer::Sheet, 206, 3, 0)?;
    book_tells(&rt, b"N,@,A\nN,@,B\nN,@,A\n", Layer::Sheet, 206, 3, 0)?;
    book_passes(&rt, b"E,@\nD,@\nC,1,@\nC,2,@\nN,@,A\nN,A,@\n", 6)
}

#[test]
fn a_list_has_a_security_and_a_line(rt: HostRuntime) -> Result<(), Fail> {
    list_tells(&rt, b"S,A\n", Layer::Sheet, 208, 2, 0)?;
    list_tells(&rt, b"L,xy\nL,yx\n", Layer::Sheet, 208, 3, 0)?;
    list_passes(&rt, b"L,xy\nS,A\n", 2)
}

#[test]
fn each_row_of_a_list_takes_a_slot(rt: HostRuntime) -> Result<(), Fail> {
    let mut table = [ListRow::Line([0, 0]); 2];
    passes(&rt, read_list(b"S,A\nL,xy\n", &mut table), 2)?;
    tells(
        &rt,
        read_list(b"S,A\nL,xy\nL,yx\n", &mut table),
        Layer::Sheet,
        207,
        3,
        0,
    )?;
    tells(
        &rt,
        read_list(b"S,A\nL,xy\nS,A\n", &mut table),
        Layer::Sheet,
        206,
        3,
        0,
    )?;
    let mut none: [ListRow; 0] = [];
    tells(&rt, read_list(b"S,A\n", &mut none), Layer::Sheet, 207, 1, 0)?;
    tells(&rt, read_list(b"S,\n", &mut none), Layer::Field, 205, 1, 2)
}

#[test]
fn each_row_of_a_book_takes_a_slot(rt: HostRuntime) -> Result<(), Fail> {
    let mut table = [BookRow::Flag(0); 1];
    passes(&rt, read_book(b"E,@\n", &mut table), 1)?;
    tells(
        &rt,
        read_book(b"E,@\nE,A\n", &mut table),
        Layer::Sheet,
        207,
        2,
        0,
    )?;
    let mut none: [BookRow; 0] = [];
    passes(&rt, read_book(b"", &mut none), 0)?;
    tells(&rt, read_book(b"E,@\n", &mut none), Layer::Sheet, 207, 1, 0)
}

#[test]
fn the_rows_before_a_fault_stand(rt: HostRuntime) -> Result<(), Fail> {
    let untouched = ListRow::Line([0, 0]);
    let mut list = [untouched; 4];
    tells(
        &rt,
        read_list(b"S,A\nL,xy\n\n", &mut list),
        Layer::Field,
        203,
        3,
        1,
    )?;
    assert_eq!(rt; list[0], ListRow::Security(*b"A          "));
    assert_eq!(rt; list[1], ListRow::Line(*b"xy"));
    assert_eq!(rt; list[2], untouched);
    let untouched = BookRow::Flag(0);
    let mut book = [untouched; 6];
    tells(
        &rt,
        read_book(b"E,@\nD,B\nC,4,R\nN,@,R\nE", &mut book),
        Layer::Line,
        201,
        5,
        0,
    )?;
    assert_eq!(rt; book[0], BookRow::Flag(b'@'));
    assert_eq!(rt; book[1], BookRow::Side(b'B'));
    assert_eq!(rt; book[2], BookRow::Value(Bucket::Four, b'R'));
    assert_eq!(rt; book[3], BookRow::Barred(b'@', b'R'));
    assert_eq!(rt; book[4], untouched);
    Ok(())
}
