// A line of text in the making, in memory of its own. Each call asks for the room that its text can need, so that none refuses.
ghost use Rattle.std.specs.Prelude.{◌≡◌, ◌+◌, ◌≤◌, ◌∷◌, ◌++◌, length};
ghost use Rattle.arrayvec.specs.ArrayVec.{array_vec_len};
ghost use Rattle.text.specs.Symbol.{text_of};

use arrayvec::ArrayVec;
use itoa::{Buffer, Integer};
use text::symbol::unpadded;

// The room that a line asks for; none takes more than 115 bytes of it.
pub(crate) const ROOM: usize = 128;

pub(crate) type Line = ArrayVec<u8, ROOM>;

fn push_text(line: &mut Line, text: &[u8])
    requires { array_vec_len line.old + length text.now ≤ ROOM }
    ensures items { line.new.items ≡ line.old.items ++ text.now }
    ensures len { array_vec_len line.new ≡ array_vec_len line.old + length text.now }
{
    match line.try_extend_from_slice(text) {
        Ok(()) => {}
        Err(_) => unreachable!(),
    }
}

pub(crate) fn push_number<N: Integer>(line: &mut Line, n: N)
    requires { array_vec_len line.old + N.MAX_STR_LEN ≤ ROOM }
    ensures items { line.new.items ≡ line.old.items ++ N.text n }
    ensures len { array_vec_len line.new ≤ array_vec_len line.old + N.MAX_STR_LEN }
{
    let mut digits = Buffer::new();
    push_text(line, digits.format(n).as_bytes());
}

// A text behind a comma.
pub(crate) fn push_field(line: &mut Line, text: &[u8])
    requires { array_vec_len line.old + 1 + length text.now ≤ ROOM }
    ensures items { line.new.items ≡ line.old.items ++ 44 ∷ text.now }
    ensures len { array_vec_len line.new ≡ array_vec_len line.old + 1 + length text.now }
{
    line.push(b',');
    push_text(line, text);
}

// A symbol behind a comma, without its padding.
#[tactic(auto, using(crate::proofs::Texts::text_short))]
pub(crate) fn push_symbol(line: &mut Line, symbol: &[u8])
    requires { array_vec_len line.old + 1 + length symbol.now ≤ ROOM }
    ensures items { line.new.items ≡ line.old.items ++ 44 ∷ text_of symbol.now }
    ensures len { array_vec_len line.new ≤ array_vec_len line.old + 1 + length symbol.now }
{
    push_field(line, unpadded(symbol));
}

// A number behind a comma.
pub(crate) fn push_number_field<N: Integer>(line: &mut Line, n: N)
    requires { array_vec_len line.old + 1 + N.MAX_STR_LEN ≤ ROOM }
    ensures items { line.new.items ≡ line.old.items ++ 44 ∷ N.text n }
    ensures len { array_vec_len line.new ≤ array_vec_len line.old + 1 + N.MAX_STR_LEN }
{
    let mut digits = Buffer::new();
    push_field(line, digits.format(n).as_bytes());
}
