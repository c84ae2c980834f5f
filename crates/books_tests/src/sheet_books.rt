// Books read from sheets.
use books::code_book::CodeBook;
use books::sheet_book::SheetBook;
use codes::book_row::BookRow;
use codes::book_sheet::read_book;
use sheets::bucket::Bucket;
use std::test::Fail;

const SHEET: &[u8] =
    b"E, \nE,X\nD,B\nD,S\nC,1,@\nC,1,R\nC,2, \nC,2,F\nC,3, \nC,3,T\nC,4, \nC,4,I\nC,4,P\nN, ,F\n";

#[test]
fn exactly_the_codes_that_rows_name(rt: HostRuntime) -> Result<(), Fail> {
    let mut table = [BookRow::Flag(0); 14];
    let Ok(n) = read_book(SHEET, &mut table) else {
        return Err(Fail::new("the sheet is faultless"));
    };
    let book = SheetBook::of_rows(&table[0..n]);
    for byte in 0..=255u8 {
        assert_eq!(rt; book.accepts_flag(byte), byte == b' ' || byte == b'X');
        assert_eq!(rt; book.accepts_side(byte), byte == b'B' || byte == b'S');
        assert_eq!(rt;
            book.accepts_value(Bucket::One, byte),
            byte == b'@' || byte == b'R'
        );
        assert_eq!(rt;
            book.accepts_value(Bucket::Two, byte),
            byte == b' ' || byte == b'F'
        );
        assert_eq!(rt;
            book.accepts_value(Bucket::Three, byte),
            byte == b' ' || byte == b'T'
        );
        assert_eq!(rt;
            book.accepts_value(Bucket::Four, byte),
            byte == b' ' || byte == b'I' || byte == b'P'
        );
    }
    Ok(())
}

#[test]
fn a_barred_byte_fails_at_any_place(rt: HostRuntime) -> Result<(), Fail> {
    let mut table = [BookRow::Flag(0); 14];
    let Ok(n) = read_book(SHEET, &mut table) else {
        return Err(Fail::new("the sheet is faultless"));
    };
    let book = SheetBook::of_rows(&table[0..n]);
    assert!(rt; !book.go_together(b' ', b"@F  "));
    assert!(rt; !book.go_together(b' ', b"F@  "));
    assert!(rt; !book.go_together(b' ', b"@  F"));
    assert!(rt; book.go_together(b'X', b"@F  "));
    assert!(rt; book.go_together(b' ', b"@   "));
    Ok(())
}

#[test]
fn an_empty_sheet_accepts_nothing(rt: HostRuntime) -> Result<(), Fail> {
    let mut table = [BookRow::Flag(0); 0];
    let Ok(n) = read_book(b"", &mut table) else {
        return Err(Fail::new("an empty book is lawful"));
    };
    let book = SheetBook::of_rows(&table[0..n]);
    for byte in 0..=255u8 {
        assert!(rt;
            !book.accepts_flag(byte)
                && !book.accepts_side(byte)
                && !book.accepts_value(Bucket::One, byte)
        );
    }
    assert!(rt; book.go_together(b' ', b"@F  "));
    Ok(())
}
