// What makes a kind of sheet is its kind of row: how a line is read as one, and which rows may stand after which.
ghost use Rattle.std.specs.Prelude.{◌≡◌};
ghost use Rattle.sheets.specs.Layers.{Rules};

use crate::fault::FieldFault;

// Its methods are tests, as the rules are; the reader knows which fault each of them means.
pub trait SheetRow: Copy {
    ghost rules: { Rules Self };

    // The row that a line is, or which field of it is at fault.
    fn of_line(line: &[u8]) -> Result<Self, FieldFault>
        ensures { result ≡ rules.row_of line.now };

    // Whether the row may not stand after those before it: it repeats one of them, or does not ascend.
    fn is_disordered(&self, before: &[Self]) -> bool
        ensures { result ≡ rules.disordered before.now self.now };

    // Whether the rows before it are already as many of its kind as a sheet may have.
    fn is_beyond(&self, before: &[Self]) -> bool
        ensures { result ≡ rules.beyond before.now self.now };

    // Whether no row is missing that every sheet of the kind has.
    fn are_whole(rows: &[Self]) -> bool
        ensures { result ≡ rules.whole rows.now };
}
