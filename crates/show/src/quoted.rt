// Bytes of a frame or a sheet as text that a terminal can show.
ghost use Rattle.std.specs.Prelude.{◌≡◌, Some};
ghost use Rattle.std.specs.Fmt.{WritesOnOk};
ghost use Rattle.show.specs.Quoted.{escaped, plain, quoted_text};

use std::fmt;
use text::printable::is_printable;

// The bytes between double quotes. A byte that is not printable, a quote or a backslash is written as \x and two digits.
#[derive(Clone, Copy)]
pub struct Quoted<'a>(pub &'a [u8]);

// Whether a byte stands for itself between quotes.
fn is_plain(byte: u8) -> bool
    ensures { result ≡ plain byte }
{
    is_printable(byte) && byte != b'"' && byte != b'\\'
}

fn write_escaped<W: fmt::Write>(f: &mut fmt::Formatter<W>, byte: u8) -> fmt::Result
    ensures { WritesOnOk W.write_str_gives f.old result (escaped byte) f.new }
{
    if is_plain(byte) {
        f.write_char(char::from(byte))
    } else {
        write!(f, "\\x{byte:02x}")
    }
}

impl<'a> fmt::Display for Quoted<'a> {
    ghost output = { λ shown. Some (quoted_text shown.0.now) };

    fn fmt<W: fmt::Write>(&self, f: &mut fmt::Formatter<W>) -> fmt::Result {
        f.write_str("\"")?;
        for byte in self.0 {
            write_escaped(f, *byte)?;
        }
        f.write_str("\"")
    }
}
