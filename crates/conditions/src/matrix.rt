// The sale condition matrix: to which statistics a trade report with a given condition byte counts.
ghost use Rattle.std.specs.Prelude.{◌≡◌};
ghost use Rattle.conditions.specs.Matrix.{row_of, row_lettered, in_columns, effects_in, byte_effects};

// What a condition says to one of the statistics, in the order of strength: what comes later beats what comes before.
// `First` counts only where nothing stands yet.
#[derive(Clone, Copy, PartialEq, Eq, PartialOrd, Ord, Debug)]
pub enum Says {
    Yes,
    First,
    No,
}

// What a condition byte, or a whole condition, says to each of the statistics.
#[derive(Clone, Copy, PartialEq, Eq, Debug)]
pub struct Effects {
    pub consolidated_high_low: Says,
    pub consolidated_last: Says,
    pub center_high_low: Says,
    pub center_last: Says,
    pub volume: Says,
}

// The rows of the matrix. Bytes of one row have the same effects.
#[derive(Clone, Copy, PartialEq, Eq, Debug)]
pub enum Row {
    // counts everywhere
    Regular,
    // sets a last only where there is none yet
    FirstLast,
    // counts for volume alone
    VolumeOnly,
    // a market center's official closing price
    OfficialClose,
    // a market center's official opening price
    OfficialOpen,
    // a correction of the consolidated closing price
    CorrectedClose,
    // counts nowhere, as does a byte that the matrix does not list
    Silent,
}

// The letter of each byte's row, sixteen bytes to a line.
const ROW_LETTERS: &[u8; 256] = b"\
    ................\
    ................\
    R...............\
    .R..FRRV.X......\
    RRRVR.RFVV.RRCVR\
    FOVRVVVVRRF.....\
    ................\
    ................\
    ................\
    ................\
    ................\
    ................\
    ................\
    ................\
    ................\
    ................";

// No `From<u8>`: a condition byte has a row, too, by `row_of`.
fn row_lettered(letter: u8) -> Row
    ensures { result ≡ row_lettered letter }
{
    match letter {
        b'R' => Row::Regular,
        b'F' => Row::FirstLast,
        b'V' => Row::VolumeOnly,
        b'C' => Row::OfficialClose,
        b'O' => Row::OfficialOpen,
        b'X' => Row::CorrectedClose,
        _ => Row::Silent,
    }
}

// The row that a condition byte stands in.
pub fn row_of(byte: u8) -> Row
    ensures { result ≡ row_of byte }
{
    // a cast: with `usize::from` the one computed test of all bytes did not close
    row_lettered(ROW_LETTERS[byte as usize])
}

// A line of the matrix, column by column.
fn columns(
    consolidated_high_low: Says,
    consolidated_last: Says,
    center_high_low: Says,
    center_last: Says,
    volume: Says,
) -> Effects
    ensures { result ≡ in_columns consolidated_high_low consolidated_last center_high_low center_last volume }
{
    Effects {
        consolidated_high_low,
        consolidated_last,
        center_high_low,
        center_last,
        volume,
    }
}

fn effects_in(row: Row) -> Effects
    ensures { result ≡ effects_in row }
{
    match row {
        Row::Regular => columns(Says::Yes, Says::Yes, Says::Yes, Says::Yes, Says::Yes),
        Row::FirstLast => columns(Says::Yes, Says::First, Says::Yes, Says::First, Says::Yes),
        Row::VolumeOnly => columns(Says::No, Says::No, Says::No, Says::No, Says::Yes),
        Row::OfficialClose => columns(Says::No, Says::No, Says::Yes, Says::Yes, Says::No),
        Row::OfficialOpen => columns(Says::No, Says::No, Says::Yes, Says::No, Says::No),
        Row::CorrectedClose => columns(Says::Yes, Says::Yes, Says::No, Says::No, Says::No),
        Row::Silent => columns(Says::No, Says::No, Says::No, Says::No, Says::No),
    }
}

// What one condition byte says.
pub fn byte_effects(byte: u8) -> Effects
    ensures { result ≡ byte_effects byte }
{
    effects_in(row_of(byte))
}
