// The market center mass trading action: 60 bytes, kind AU.
ghost use Rattle.std.specs.Prelude.{◌≡◌, length};
ghost use Rattle.wire.specs.MassAction.{action_fields, action_in};

use crate::header::{HeaderRow, check_header};
use crate::number::Number;
use crate::part::array;
use text::symbol::Symbol;

const LETTERS: [u8; 2] = *b"AU";

const LENGTH: usize = 60;

// Every field of the frame after the letters of its kind.
#[derive(Clone, Copy, PartialEq, Eq, Debug)]
pub struct MassAction {
    // the participant that the action comes from
    pub originator: [u8; 2],
    // the participant's time, in nanoseconds
    pub timestamp1: u64,
    // the number of the frame on its line
    pub feed_sequence: u64,
    // a number of the participant's own, passed through
    pub participant_token: u64,
    // the securities from the first to the last, by their symbols
    pub first: Symbol,
    pub last: Symbol,
    pub action: u8,
    // when the action took place, in nanoseconds
    pub action_time: u64,
}

fn fields(frame: &[u8]) -> MassAction
    requires { length frame.now ≡ 60 }
    ensures { result ≡ action_fields frame.now }
{
    MassAction {
        originator: array(&frame[3..5]),
        timestamp1: u64::of_part(&frame[5..13]),
        feed_sequence: u64::of_part(&frame[13..21]),
        participant_token: u64::of_part(&frame[21..29]),
        first: array(&frame[29..40]),
        last: array(&frame[40..51]),
        action: frame[51],
        action_time: u64::of_part(&frame[52..60]),
    }
}

// `read` is two lines, as the trade report's is: one function for both would need a trait that both implement, and be no shorter.
impl MassAction {
    pub fn read(frame: &[u8]) -> Result<MassAction, HeaderRow>
        ensures { result ≡ action_in frame.now }
    {
        check_header(frame, LETTERS, LENGTH)?;
        Ok(fields(frame))
    }
}
