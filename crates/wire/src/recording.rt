// A recording holds frames one after the other, each after its length in two bytes.
ghost use Rattle.std.specs.Prelude.{◌≡◌, ◌+◌, ◌≤◌, length, IfOk};
ghost use Rattle.text.specs.Lent.{lent};
ghost use Rattle.wire.specs.Recording.{front_frame};

use crate::number::Number;

// Where a recording stops short.
#[derive(Clone, Copy, PartialEq, Eq, Debug)]
pub enum Cut {
    InLength,
    InFrame,
}

// The frame at the front of what is left of a recording. What is left past it begins two bytes and the frame further on.
pub fn front_frame(rest: &[u8]) -> Result<&[u8], Cut>
    ensures value { lent result ≡ front_frame rest.now }
    ensures within { IfOk result (λ frame. 2 + length frame.now ≤ length rest.now) }
{
    if rest.len() < 2 {
        return Err(Cut::InLength);
    }
    let end = 2 + usize::from(u16::of_part(&rest[0..2]));
    if rest.len() < end {
        return Err(Cut::InFrame);
    }
    Ok(&rest[2..end])
}
