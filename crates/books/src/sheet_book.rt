// The code book that is lent the rows of a book sheet.
ghost use Rattle.std.specs.Prelude.{◌≡◌, true, false};
ghost use Rattle.codes.specs.BookRows.{book_rules};
ghost use Rattle.sheets.specs.Reading.{Faultless};
ghost use Rattle.books.specs.SheetSets.{any_barred, Clean, sheet_sets};

use crate::code_book::CodeBook;
use codes::book_row::{BookRow, is_among};
use sheets::bucket::Bucket;

#[derive(Drop)]
pub struct SheetBook<'a> {
    rows: &'a [BookRow],
    ghost clean: { Clean rows.now },
}

impl<'a> SheetBook<'a> {
    // Takes the rows of a faultless sheet, as `read_book` has just passed them, so that nothing is left to refuse.
    pub fn of_rows(rows: &'a [BookRow]) -> SheetBook<'a>
        requires { Faultless book_rules rows.now }
        ensures { result.rows.now ≡ rows.now }
    {
        SheetBook { rows }
    }
}

fn is_any_barred(rows: &[BookRow], flag: u8, condition: &[u8]) -> bool
    ensures { result ≡ any_barred rows.now flag condition.now }
{
    condition
        .iter()
        .any(|byte| is_among(&BookRow::Barred(flag, *byte), rows))
}

impl<'a> CodeBook for SheetBook<'a> {
    ghost sets = { λ b. sheet_sets b.rows.now b.clean };

    fn accepts_flag(&self, flag: u8) -> bool {
        is_among(&BookRow::Flag(flag), self.rows)
    }

    fn accepts_side(&self, side: u8) -> bool {
        is_among(&BookRow::Side(side), self.rows)
    }

    fn accepts_value(&self, bucket: Bucket, value: u8) -> bool {
        is_among(&BookRow::Value(bucket, value), self.rows)
    }

    fn go_together(&self, flag: u8, condition: &[u8]) -> bool {
        !is_any_barred(self.rows, flag, condition)
    }
}
