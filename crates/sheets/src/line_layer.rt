// The line layer: lines of at most 64 bytes, each ended by a byte 10 that is not counted.
ghost use Rattle.std.specs.Prelude.{◌≡◌, true, OnOk};
ghost use Rattle.cuts.specs.Cut.{has};
ghost use Rattle.text.specs.Lent.{lent};
ghost use Rattle.sheets.specs.Layers.{next_line};

use crate::fault::LineFault;
use cuts::cut::{contains, first_part};

// The line at the front of what is left of a text.
pub fn next_line(rest: &[u8]) -> Result<&[u8], LineFault>
    ensures value { lent result ≡ next_line rest.now }
    ensures ended { OnOk result (has 10 rest.now ≡ true) }
{
    if !contains(rest, b'\n') {
        return Err(LineFault::Unended);
    }
    let line = first_part(rest, b'\n');
    if line.len() > 64 {
        return Err(LineFault::TooLong);
    }
    Ok(line)
}
