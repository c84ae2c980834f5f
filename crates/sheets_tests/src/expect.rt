// What a sheet is expected to be read as, with slots to spare.
use codes::book_row::BookRow;
use codes::book_sheet::read_book;
use lists::list_row::ListRow;
use lists::list_sheet::read_list;
use sheets::fault::{Fault, Layer};
use std::process::Abort;
use std::test::Fail;

pub(crate) fn tells(
    rt: &impl Abort,
    answer: Result<usize, Fault>,
    layer: Layer,
    cause: u16,
    line: usize,
    field: u8,
) -> Result<(), Fail> {
    let Err(fault) = answer else {
        return Err(Fail::new("the sheet was passed"));
    };
    assert_eq!(rt; u16::from(fault.cause), cause);
    assert_eq!(rt; fault.layer, layer);
    assert_eq!(rt; fault.line, line);
    assert_eq!(rt; fault.field, field);
    Ok(())
}

pub(crate) fn passes(
    rt: &impl Abort,
    answer: Result<usize, Fault>,
    rows: usize,
) -> Result<(), Fail> {
    match answer {
        Ok(count) => {
            assert_eq!(rt; count, rows);
            Ok(())
        },
        Err(fault) => {
            assert_eq!(rt; u16::from(fault.cause), 0);
            Ok(())
        },
    }
}

pub(crate) fn list_tells(
    rt: &impl Abort,
    text: &[u8],
    layer: Layer,
    cause: u16,
    line: usize,
    field: u8,
) -> Result<(), Fail> {
    let mut table = [ListRow::Line([0, 0]); 300];
    tells(rt, read_list(text, &mut table), layer, cause, line, field)
}

pub(crate) fn list_passes(rt: &impl Abort, text: &[u8], rows: usize) -> Result<(), Fail> {
    let mut table = [ListRow::Line([0, 0]); 300];
    passes(rt, read_list(text, &mut table), rows)
}

pub(crate) fn book_tells(
    rt: &impl Abort,
    text: &[u8],
    layer: Layer,
    cause: u16,
    line: usize,
    field: u8,
) -> Result<(), Fail> {
    let mut table = [BookRow::Flag(0); 300];
    tells(rt, read_book(text, &mut table), layer, cause, line, field)
}

pub(crate) fn book_passes(rt: &impl Abort, text: &[u8], rows: usize) -> Result<(), Fail> {
    let mut table = [BookRow::Flag(0); 300];
    passes(rt, read_book(text, &mut table), rows)
}
