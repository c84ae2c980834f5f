// The rows of a list sheet, `S,symbol` and `L,originator`.
ghost use Rattle.std.specs.Prelude.{◌≡◌, length, None};
ghost use Rattle.lists.specs.ListRows.{latest, line_row, lines, list_row, list_rules, originator_in, securities, security_row, symbol_in};

use cuts::cut::{field, only_byte};
use sheets::fault::FieldFault;
use sheets::field_layer::{check_count, originator_field, symbol_field};
use sheets::row::SheetRow;
use text::symbol::{Symbol, precedes};

// A line is one of the day's connections. Its originator, two bytes, names who reports over it.
#[derive(Clone, Copy, PartialEq, Eq, Debug)]
pub enum ListRow {
    Security(Symbol),
    Line([u8; 2]),
}

// The two rows differ in the field's form and in the row that is made of it: shared, they would take both as arguments.
fn security_row(line: &[u8]) -> Result<ListRow, FieldFault>
    ensures { result ≡ security_row line.now }
{
    check_count(line, 2)?;
    symbol_field(line, 2).map(ListRow::Security)
}

fn line_row(line: &[u8]) -> Result<ListRow, FieldFault>
    ensures { result ≡ line_row line.now }
{
    check_count(line, 2)?;
    originator_field(line, 2).map(ListRow::Line)
}

fn list_row(line: &[u8]) -> Result<ListRow, FieldFault>
    ensures { result ≡ list_row line.now }
{
    match only_byte(field(line, 1)) {
        Some(b'S') => security_row(line),
        Some(b'L') => line_row(line),
        _ => Err(FieldFault::UnknownRow),
    }
}

impl ListRow {
    fn symbol(&self) -> Option<Symbol>
        ensures { result ≡ symbol_in self.now }
    {
        match self {
            ListRow::Security(symbol) => Some(*symbol),
            ListRow::Line(_) => None,
        }
    }

    fn originator(&self) -> Option<[u8; 2]>
        ensures { result ≡ originator_in self.now }
    {
        match self {
            ListRow::Security(_) => None,
            ListRow::Line(originator) => Some(*originator),
        }
    }
}

// Symbols and originators differ in type and in what is asked of them, and each question is one chain.
fn symbol_count(rows: &[ListRow]) -> usize
    ensures { result ≡ length (securities rows.now) }
{
    rows.iter().filter_map(|row| row.symbol()).count()
}

fn originator_count(rows: &[ListRow]) -> usize
    ensures { result ≡ length (lines rows.now) }
{
    rows.iter().filter_map(|row| row.originator()).count()
}

// Looked for from the last row on, which mostly has it; `nth(0)` is the first, of which the library has a lemma.
fn last_symbol(rows: &[ListRow]) -> Option<Symbol>
    ensures { result ≡ latest None (securities rows.now) }
{
    rows.iter().rev().filter_map(|row| row.symbol()).nth(0)
}

impl SheetRow for ListRow {
    ghost rules = { list_rules };

    fn of_line(line: &[u8]) -> Result<ListRow, FieldFault> {
        list_row(line)
    }

    fn is_disordered(&self, before: &[ListRow]) -> bool {
        match self {
            ListRow::Security(symbol) => match last_symbol(before) {
                Some(last) => !precedes(&last, symbol),
                None => false,
            },
            ListRow::Line(_) => before.contains(self),
        }
    }

    fn is_beyond(&self, before: &[ListRow]) -> bool {
        match self {
            ListRow::Security(_) => symbol_count(before) >= 256,
            ListRow::Line(_) => originator_count(before) >= 16,
        }
    }

    fn are_whole(rows: &[ListRow]) -> bool {
        symbol_count(rows) >= 1 && originator_count(rows) >= 1
    }
}
