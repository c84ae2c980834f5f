// Sheets whose rows are read into a table of the programs'.
use codes::book_row::BookRow;
use files::sheet::{BOOK_TABLE, LIST_TABLE, book_rows, list_rows};
use lists::list_row::ListRow;
use sheets::bucket::Bucket;
use std::test::Fail;

#[test]
fn the_rows_of_a_list_stand_in_its_order(rt: HostRuntime) -> Result<(), Fail> {
    let mut table = LIST_TABLE;
    let Ok(rows) = list_rows(b"S,AAPL\nS,MSFT\nL,xy\n", &mut table) else {
        return Err(Fail::new("the sheet has a fault"));
    };
    let wanted = [
        ListRow::Security(*b"AAPL       "),
        ListRow::Security(*b"MSFT       "),
        ListRow::Line(*b"xy"),
    ];
    assert_eq!(rt; rows, wanted.as_slice());
    Ok(())
}

#[test]
fn the_rows_of_a_book_stand_in_its_order(rt: HostRuntime) -> Result<(), Fail> {
    let mut table = BOOK_TABLE;
    let Ok(rows) = book_rows(b"E,X\nC,2,F\n", &mut table) else {
        return Err(Fail::new("the sheet has a fault"));
    };
    let wanted = [BookRow::Flag(b'X'), BookRow::Value(Bucket::Two, b'F')];
    assert_eq!(rt; rows, wanted.as_slice());
    Ok(())
}
