// The list sheet: the securities and the lines of a practice day.
ghost use Rattle.std.specs.Prelude.{◌≡◌, ◌≤◌, length, take, IfOk};
ghost use Rattle.lists.specs.ListRows.{list_rules};
ghost use Rattle.sheets.specs.Reading.{Faultless, sheet_of, table_after};
ghost use Rattle.sheets.specs.Told.{answer_of};

use crate::list_row::ListRow;
use sheets::fault::Fault;
use sheets::reader::read;

// Reads a list sheet into a table, a row to a slot: how many rows it has, or its first fault. The rows before a fault stand in their
// slots, and every other slot is left as it was. One line, as a book's reading is: each promises by its own rules.
pub fn read_list(text: &[u8], table: &mut [ListRow]) -> Result<usize, Fault>
    ensures answer { result ≡ answer_of (sheet_of list_rules (length table.old) text.now) }
    ensures rows { table.new ≡ table_after (sheet_of list_rules (length table.old) text.now) table.old }
    ensures within { IfOk result (λ n. n ≤ length table.old) }
    ensures faultless { IfOk result (λ n. Faultless list_rules (take n table.new)) }
{
    read(text, table)
}
