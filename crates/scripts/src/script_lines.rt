// The lines of a script, each ended by a byte 10, which the last may lack.
ghost use Rattle.std.specs.Prelude.{◌≡◌, [], length, MatchOption};
ghost use Rattle.scripts.specs.Lines.{Opens, lines_of};

use cuts::cut::{after_first, first_part};
use std::marker::Model;

// The first line of a script, without its byte 10, and what follows it.
#[derive(Clone, Copy, PartialEq, Eq, Debug)]
pub struct FirstLine<'a> {
    pub line: &'a [u8],
    pub rest: &'a [u8],
}

// The first line, if there is one.
pub fn first_line(script: &[u8]) -> Option<FirstLine<'_>>
    ensures { MatchOption result (script.now ≡ []) (λ first. Opens script.now first.line.now first.rest.now) }
{
    if script.is_empty() {
        return None;
    }
    Some(FirstLine {
        line: first_part(script, b'\n'),
        rest: after_first(script, b'\n'),
    })
}

// The lines of a script that are still to come, each without its byte 10. It is seen as the part of the script that they stand in.
#[derive(Drop)]
pub struct Lines<'a> {
    script: &'a [u8],
}

impl<'a> Lines<'a> {
    pub fn new(script: &'a [u8]) -> Lines<'a>
        ensures { result ≡ script.now }
    {
        Lines { script }
    }
}

impl<'a> Model for Lines<'a> {
    ghost use Rattle.std.specs.Prelude.{ℕ, List};

    ghost Value = { List ℕ };

    ghost view = { λ lines. lines.script.now };
}

impl<'a> Iterator for Lines<'a> {
    ghost use Rattle.std.specs.Iterator.{item_count};
    ghost use Rattle.scripts.specs.Lines.{GivesLine};

    type Item = &'a [u8];

    ghost next_gives = { GivesLine };

    // No line takes less than a byte.
    ghost remaining = { item_count (λ script. script) };

    fn next(&mut self) -> Option<&'a [u8]> {
        let FirstLine { line, rest } = first_line(self.script)?;
        self.script = rest;
        Some(line)
    }
}

pub fn line_count(script: &[u8]) -> usize
    ensures { result ≡ length (lines_of script.now) }
{
    Lines::new(script).count()
}
