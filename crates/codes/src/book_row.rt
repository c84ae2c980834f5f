// The rows of a book sheet, `E,flag`, `D,side`, `C,bucket,value` and `N,flag,value`. A code book says which codes a report may carry:
// exempt flags, sides, and the bytes of a sale condition by their buckets; and which of these bytes may not stand beside which flag.
ghost use Rattle.std.specs.Prelude.{◌≡◌, ℕ};
ghost use Rattle.codes.specs.BookRows.{among_rows, barred_row, book_row, book_rules, code_row, value_row};

use cuts::cut::{field, only_byte};
use sheets::bucket::Bucket;
use sheets::fault::FieldFault;
use sheets::field_layer::{bucket_field, check_count, printable_field};
use sheets::row::SheetRow;

#[derive(Clone, Copy, PartialEq, Eq, Debug)]
pub enum BookRow {
    Flag(u8),
    Side(u8),
    Value(Bucket, u8),
    Barred(u8, u8),
}

// A row of one code, `E,flag` or `D,side`.
fn code_row<F: Fn(u8) -> BookRow>(line: &[u8], row: F) -> Result<BookRow, FieldFault>
    requires { F.IsAlwaysCallable row }
    ensures { (make : ℕ → BookRow) → ((code : ℕ) (made : BookRow) → F.post row code made → made ≡ make code) → result ≡ code_row make line.now }
{
    check_count(line, 2)?;
    printable_field(line, 2).map(row)
}

// The rows of two codes differ in the first field's form and type, and in the row that is made.
fn value_row(line: &[u8]) -> Result<BookRow, FieldFault>
    ensures { result ≡ value_row line.now }
{
    check_count(line, 3)?;
    let bucket = bucket_field(line, 2)?;
    printable_field(line, 3).map(|value| BookRow::Value(bucket, value))
}

fn barred_row(line: &[u8]) -> Result<BookRow, FieldFault>
    ensures { result ≡ barred_row line.now }
{
    check_count(line, 3)?;
    let flag = printable_field(line, 2)?;
    printable_field(line, 3).map(|value| BookRow::Barred(flag, value))
}

fn book_row(line: &[u8]) -> Result<BookRow, FieldFault>
    ensures { result ≡ book_row line.now }
{
    match only_byte(field(line, 1)) {
        Some(b'E') => code_row(line, BookRow::Flag),
        Some(b'D') => code_row(line, BookRow::Side),
        Some(b'C') => value_row(line),
        Some(b'N') => barred_row(line),
        _ => Err(FieldFault::UnknownRow),
    }
}

// Not by the library's `contains`, which took twice the time: the row is copied, so that its kind is looked at once.
pub fn is_among(row: &BookRow, rows: &[BookRow]) -> bool
    ensures { result ≡ among_rows rows.now row.now }
{
    let row = *row;
    rows.iter().any(|other| *other == row)
}

impl SheetRow for BookRow {
    ghost rules = { book_rules };

    fn of_line(line: &[u8]) -> Result<BookRow, FieldFault> {
        book_row(line)
    }

    fn is_disordered(&self, before: &[BookRow]) -> bool {
        is_among(self, before)
    }

    fn is_beyond(&self, before: &[BookRow]) -> bool {
        before.len() >= 256
    }

    fn are_whole(_rows: &[BookRow]) -> bool {
        true
    }
}
