// The words of a line, parted by single spaces.
ghost use Rattle.std.specs.Prelude.{◌≡◌};
ghost use Rattle.scripts.specs.Word.{word_count, word_of};

use cuts::cut::{part, part_count};

// How many words a line has: one more than its spaces.
pub(crate) fn word_count(line: &[u8]) -> usize
    ensures { result ≡ word_count line.now }
{
    part_count(line, b' ')
}

// A word of a line, counted from 0, the name of the call; empty where the line has fewer. Words are asked for one by one: tried as an
// array of all of them, by `array::from_fn`, they got no proof.
pub(crate) fn word(line: &[u8], number: usize) -> &[u8]
    ensures { result.now ≡ word_of number line.now }
{
    part(line, b' ', number)
}
