// What a frame is told: a letter, a code and a row, by their numbers in the published tables.
use books::code_book::CodeBook;
use books::sheet_book::SheetBook;
use codes::book_row::BookRow;
use codes::book_sheet::read_book;
use lines::judge::judge;
use rows::context::{Context, Phase};
use std::test::Fail;
use verdicts::answer::Answer;

#[derive(Clone, Copy, PartialEq, Eq, Debug)]
pub(crate) struct Told {
    pub(crate) letter: u8,
    pub(crate) code: u16,
    pub(crate) row: u16,
}

pub(crate) const TAKEN: Told = Told {
    letter: b'T',
    code: 0,
    row: 0,
};

pub(crate) const PASSED_OVER: Told = Told {
    letter: b'P',
    code: 0,
    row: 0,
};

pub(crate) fn rejected(code: u16, row: u16) -> Told {
    Told {
        letter: b'R',
        code,
        row,
    }
}

pub(crate) fn cut(code: u16, row: u16) -> Told {
    Told {
        letter: b'C',
        code,
        row,
    }
}

// The first frame of the line QU, of a security that is listed, on an open day.
pub(crate) const CONTEXT: Context = Context {
    originator: *b"QU",
    expected_sequence: 1,
    security: Some(2),
    expected_trade_id: 1,
    phase: Phase::Open,
    start: 1000,
    sip_time: 5000,
};

// A book in which F may not stand beside the flag space.
pub(crate) const SHEET: &[u8] =
    b"E, \nE,X\nD,B\nD,S\nC,1,@\nC,1,R\nC,2, \nC,2,F\nC,3, \nC,3,T\nC,4, \nC,4,I\nC,4,P\nN, ,F\n";

pub(crate) fn judged_by<B: CodeBook>(book: &B, frame: &[u8], context: &Context) -> Told {
    let answer = match judge(frame, context, book) {
        Ok(_) => Answer::Taken(0),
        Err(verdict) => Answer::from(verdict),
    };
    Told {
        letter: answer.letter(),
        code: answer.code(),
        row: answer.row(),
    }
}

// What a frame is told by the book of a sheet of at most 20 rows.
pub(crate) fn judged_by_sheet(sheet: &[u8], frame: &[u8], context: &Context) -> Result<Told, Fail> {
    let mut table = [BookRow::Flag(0); 20];
    let Ok(n) = read_book(sheet, &mut table) else {
        return Err(Fail::new("the sheet is faultless"));
    };
    let book = SheetBook::of_rows(&table[0..n]);
    Ok(judged_by(&book, frame, context))
}

pub(crate) fn judged(frame: &[u8], context: &Context) -> Result<Told, Fail> {
    judged_by_sheet(SHEET, frame, context)
}

// So many bytes of a buffer, or all where it has no more.
pub(crate) fn front(buffer: &[u8], length: usize) -> &[u8] {
    if length < buffer.len() {
        &buffer[0..length]
    } else {
        buffer
    }
}

// Puts the version and the letters of the kind in front of a frame.
pub(crate) fn put_start(frame: &mut [u8], version: u8, letters: [u8; 2]) {
    if frame.len() >= 3 {
        frame[0] = version;
        frame[1..3].copy_from_slice(&letters);
    }
}
