// The head of every frame: a version, two letters that name the kind, and a length that the kind fixes.
ghost use Rattle.std.specs.Prelude.{◌≡◌};
ghost use Rattle.wire.specs.Header.{asked_of, first_failing, header_number, unless};

// The rows of the header that can be asked of a frame alone.
#[derive(Clone, Copy, PartialEq, Eq, Debug)]
pub enum HeaderRow {
    Version,
    Kind,
    Length,
}

// A row's number in the table of header rows.
impl From<HeaderRow> for u16 {
    ghost from_gives = { λ row number. number ≡ header_number row };

    fn from(row: HeaderRow) -> u16 {
        match row {
            HeaderRow::Version => 101,
            HeaderRow::Kind => 102,
            HeaderRow::Length => 103,
        }
    }
}

// Asks the three rows of a frame of the kind that has these letters and this length.
pub fn check_header(frame: &[u8], letters: [u8; 2], size: usize) -> Result<(), HeaderRow>
    ensures { result ≡ unless (first_failing (asked_of letters size frame.now)) tt }
{
    if frame.len() < 3 || frame[0] != b'1' {
        return Err(HeaderRow::Version);
    }
    if frame[1] != letters[0] || frame[2] != letters[1] {
        return Err(HeaderRow::Kind);
    }
    if frame.len() != size {
        return Err(HeaderRow::Length);
    }
    Ok(())
}
