// The rows of a day sheet, in a table that the caller lends: a program of the day asks for no memory to read its sheets.
ghost use Rattle.std.specs.Prelude.{◌≡◌, None, Err, IfErr, IfOk};
ghost use Rattle.codes.specs.BookRows.{book_rules};
ghost use Rattle.lists.specs.ListRows.{list_rules};
ghost use Rattle.sheets.specs.Reading.{Faultless, sheet_of};
ghost use Rattle.sheets.specs.Told.{answer_of};

use codes::book_row::BookRow;
use codes::book_sheet::read_book;
use lists::list_row::ListRow;
use lists::list_sheet::read_list;
use sheets::fault::Fault;

// A table for a list, which has at most 256 securities and 16 lines, before a sheet is read into it.
pub const LIST_TABLE: [ListRow; 272] = [ListRow::Line(*b"  "); 272];

// A table for a book, which has at most 256 rows, before a sheet is read into it.
pub const BOOK_TABLE: [BookRow; 256] = [BookRow::Flag(b' '); 256];

// A list sheet's rows, or its first fault. This and `book_rows` are two lines each: the sheets differ in their rows, and in how many
// there may be.
pub fn list_rows<'a>(text: &[u8], table: &'a mut [ListRow; 272]) -> Result<&'a [ListRow], Fault>
    ensures rows { IfOk result (λ rows. sheet_of list_rules 272 text.now ≡ record { rows = rows.now; fault = None }) }
    ensures fault { IfErr result (λ fault. answer_of (sheet_of list_rules 272 text.now) ≡ Err fault) }
    ensures faultless { IfOk result (λ rows. Faultless list_rules rows.now) }
{
    let count = read_list(text, table)?;
    Ok(&table[..count])
}

// A book sheet's rows, or its first fault.
pub fn book_rows<'a>(text: &[u8], table: &'a mut [BookRow; 256]) -> Result<&'a [BookRow], Fault>
    ensures rows { IfOk result (λ rows. sheet_of book_rules 256 text.now ≡ record { rows = rows.now; fault = None }) }
    ensures fault { IfErr result (λ fault. answer_of (sheet_of book_rules 256 text.now) ≡ Err fault) }
    ensures faultless { IfOk result (λ rows. Faultless book_rules rows.now) }
{
    let count = read_book(text, table)?;
    Ok(&table[..count])
}
