// Decimal numbers without leading zeros, put into a caller's buffer.
ghost use Rattle.std.specs.Prelude.{◌≡◌, decimal};
ghost use Rattle.text.specs.Buffer.{past_text, with_text};

use itoa::Buffer;

// Puts a text into a buffer from an index on, where there is room for it.
fn put_text(buffer: &mut [u8], at: usize, text: &[u8]) -> Option<usize>
    ensures past { result ≡ past_text buffer.old at text.now }
    ensures after { buffer.new ≡ with_text buffer.old at text.now }
{
    if at > buffer.len() || buffer.len() - at < text.len() {
        return None;
    }
    let past = at + text.len();
    buffer[at..past].copy_from_slice(text);
    Some(past)
}

// Puts a number into a buffer from an index on, and answers the index past it. Where the buffer has no room for
// all of it, nothing is written and there is no answer. Every other byte stays as it was.
pub fn put_decimal(buffer: &mut [u8], at: usize, n: u64) -> Option<usize>
    ensures past { result ≡ past_text buffer.old at (decimal n) }
    ensures after { buffer.new ≡ with_text buffer.old at (decimal n) }
{
    let mut digits = Buffer::new();
    put_text(buffer, at, digits.format(n).as_bytes())
}
