// Reads a sheet of any kind into a caller's table.
ghost use Rattle.std.specs.Prelude.{◌≡◌, ◌<◌, ◌≤◌, true, length, IfOk, OnOk};
ghost use Rattle.cuts.specs.Cut.{has};
ghost use Rattle.sheets.specs.Layers.{row_in, next_line, placed as placed_as};
ghost use Rattle.sheets.specs.Reading.{sheet_of, table_after};
ghost use Rattle.sheets.specs.Told.{answer_of};

use crate::fault::{Fault, FieldFault, SheetFault};
use crate::line_layer::next_line;
use crate::row::SheetRow;
use cuts::cut::after_first;

fn next_row<R: SheetRow>(rest: &[u8]) -> Result<R, FieldFault>
    ensures value { result ≡ row_in R.SheetRow.rules (next_line rest.now) }
    ensures ended { OnOk result (has 10 rest.now ≡ true) }
{
    let line = next_line(rest)?;
    R::of_line(line)
}

fn next_placed<R: SheetRow>(rest: &[u8], seen: &[R], slots: usize) -> Result<R, SheetFault>
    ensures value { result ≡ placed_as R.SheetRow.rules slots seen.now (row_in R.SheetRow.rules (next_line rest.now)) }
    ensures ended { OnOk result ((has 10 rest.now ≡ true) × (length seen.now < slots)) }
{
    let row: R = next_row(rest)?;
    if row.is_disordered(seen) {
        return Err(SheetFault::OutOfOrder);
    }
    if row.is_beyond(seen) || seen.len() >= slots {
        return Err(SheetFault::TooMany);
    }
    Ok(row)
}

// The number of rows, each in its slot of the table from the first on; or the first fault, with the rows before it in their slots.
// The table is a caller's: no library of the day asks for memory.
pub fn read<R: SheetRow>(text: &[u8], table: &mut [R]) -> Result<usize, Fault>
    ensures answer { result ≡ answer_of (sheet_of R.SheetRow.rules (length table.old) text.now) }
    ensures rows { table.new ≡ table_after (sheet_of R.SheetRow.rules (length table.old) text.now) table.old }
    ensures within { IfOk result (λ n. n ≤ length table.old) }
{
    let mut rest = text;
    let slots = table.len();
    // Counted by hand: a row is judged by the slots before its own, so an iterator over the slots cannot hold the table.
    let mut count = 0;
    while !rest.is_empty() {
        let seen = &table[..count];
        let row = next_placed(rest, seen, slots).map_err(|fault| fault.past_rows(count))?;
        table[count] = row;
        count += 1;
        rest = after_first(rest, b'\n');
    }
    if !R::are_whole(&table[..count]) {
        return Err(SheetFault::Incomplete.past_rows(count));
    }
    Ok(count)
}
