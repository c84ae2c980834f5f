// Why a line of a script is no call.
ghost use Rattle.std.specs.Prelude.{◌≡◌, Some};
ghost use Rattle.scripts.specs.Malformed.{words_of};

use std::error::Error;
use std::fmt;

// The first of these that applies, from the front of the line on.
#[derive(Clone, Copy, PartialEq, Eq, Debug)]
pub enum Malformed {
    UnknownCall,
    WordCount,
    LineNumber,
    Time,
    Buffer,
    Hex,
    SymbolWord,
    Action,
}

impl Malformed {
    // What is wrong, in words for a person.
    pub fn words(&self) -> &'static str
        ensures { result.now ≡ words_of self.now }
    {
        match self {
            Malformed::UnknownCall => "no call has this name",
            Malformed::WordCount =>
                "this call has another number of words, parted by single spaces",
            Malformed::LineNumber => "the line's number is no decimal number, or too large",
            Malformed::Time => "the time is no decimal number below 2^64",
            Malformed::Buffer => "the buffer is no decimal number up to 65535",
            Malformed::Hex => "the frame is neither - nor an even number of hex digits",
            Malformed::SymbolWord => "the symbol is not 1 to 11 visible bytes",
            Malformed::Action => "the action is not halt, pause, quote or trade",
        }
    }
}

impl fmt::Display for Malformed {
    ghost output = { λ fault. Some (words_of fault) };

    fn fmt<W: fmt::Write>(&self, f: &mut fmt::Formatter<W>) -> fmt::Result {
        f.write_str(self.words())
    }
}

impl Error for Malformed {}
