// The answer to an inquiry: 33 bytes, kind cS.
ghost use Rattle.std.specs.Prelude.{◌≡◌, ◌≤◌, ◌++◌, length, drop};
ghost use Rattle.inquiry.specs.Inquiry.{inquiry_bytes, with_inquiry, writing_inquiry};

use crate::security_state::SecurityState;
use text::symbol::Symbol;
use wire::number::Number;
use wire::trade_report::WriteRefusal;

const LENGTH: usize = 33;

// What a line is told of a security.
#[derive(Clone, Copy)]
pub struct Inquiry {
    // the processor's time, in nanoseconds
    pub sip_time: u64,
    pub symbol: Symbol,
    // the trade id that the line's next report of this security has to carry
    pub next_trade_id: u32,
    // one more than the actions posted on the security so far
    pub action_number: u32,
    pub state: SecurityState,
}

// The answer, where there is room for it.
fn place(inquiry: &Inquiry, buffer: &mut [u8])
    requires { 33 ≤ length buffer.old }
    ensures { buffer.new ≡ inquiry_bytes inquiry.now ++ drop 33 buffer.old }
{
    buffer[0..5].copy_from_slice(b"1cSSU");
    inquiry.sip_time.put(&mut buffer[5..13]);
    buffer[13..24].copy_from_slice(&inquiry.symbol);
    inquiry.next_trade_id.put(&mut buffer[24..28]);
    inquiry.action_number.put(&mut buffer[28..32]);
    buffer[32] = u8::from(inquiry.state);
}

impl Inquiry {
    // Writes 33 bytes at the front of a buffer, or nothing where the buffer is shorter; the other bytes stay as they
    // were.
    pub fn write(&self, buffer: &mut [u8]) -> Result<(), WriteRefusal>
        ensures answer { result ≡ writing_inquiry buffer.old }
        ensures after { buffer.new ≡ with_inquiry self.now buffer.old }
    {
        if buffer.len() < LENGTH {
            return Err(WriteRefusal::ShortBuffer);
        }
        place(self, buffer);
        Ok(())
    }
}
