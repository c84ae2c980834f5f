// The book sheet: the codes that the reports of a practice day may carry.
ghost use Rattle.std.specs.Prelude.{◌≡◌, ◌≤◌, length, take, IfOk};
ghost use Rattle.codes.specs.BookRows.{book_rules};
ghost use Rattle.sheets.specs.Reading.{Faultless, sheet_of, table_after};
ghost use Rattle.sheets.specs.Told.{answer_of};

use crate::book_row::BookRow;
use sheets::fault::Fault;
use sheets::reader::read;

// Reads a book sheet into a table, a row to a slot: how many rows it has, or its first fault. The rows before a fault stand in their
// slots, and every other slot is left as it was. One line, as a list's reading is: each promises by its own rules.
pub fn read_book(text: &[u8], table: &mut [BookRow]) -> Result<usize, Fault>
    ensures answer { result ≡ answer_of (sheet_of book_rules (length table.old) text.now) }
    ensures rows { table.new ≡ table_after (sheet_of book_rules (length table.old) text.now) table.old }
    ensures within { IfOk result (λ n. n ≤ length table.old) }
    ensures faultless { IfOk result (λ n. Faultless book_rules (take n table.new)) }
{
    read(text, table)
}
