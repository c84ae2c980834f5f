// A frame as a word: two hex digits to a byte, or `-` for no byte at all.
ghost use Rattle.std.specs.Prelude.{◌≡◌, ◌<◌, ◌≤◌, ◌++◌, length, drop};
ghost use Rattle.scripts.specs.Hex.{all_hex, decoded, digit_value, frame_after, is_frame, pairs};

use cuts::cut::is_same;

fn all_digits(word: &[u8]) -> bool
    ensures { result ≡ all_hex word.now }
{
    word.iter().all(|byte| byte.is_ascii_hexdigit())
}

// Whether a word is a frame.
pub fn is_hex(word: &[u8]) -> bool
    ensures { result ≡ is_frame word.now }
{
    is_same(word, b"-") || (word.len() >= 2 && word.len() % 2 == 0 && all_digits(word))
}

// What a hex digit stands for; 0 for any other byte.
fn digit_value(byte: u8) -> u8
    ensures value { result ≡ digit_value byte }
    ensures small { result < 16 }
{
    match byte {
        b'0'..=b'9' => byte - b'0',
        b'A'..=b'F' => byte - b'A' + 10,
        b'a'..=b'f' => byte - b'a' + 10,
        _ => 0,
    }
}

// The bytes that pairs of digits stand for, at the front of a frame that has room for them. Not by the toolchain's crate `hex`: it
// looks at each digit again, and took four times as long.
fn place_pairs(word: &[u8], frame: &mut [u8])
    requires { length (pairs word.now) ≤ length frame.old }
    ensures { frame.new ≡ pairs word.now ++ drop (length (pairs word.now)) frame.old }
{
    for i in 0..word.len() / 2 {
        frame[i] = digit_value(word[2 * i]) * 16 + digit_value(word[2 * i + 1]);
    }
}

// Puts the bytes of a frame at the front of a buffer, and answers how many they are. Where the word is no frame, or the
// buffer too short, nothing is written and there is no answer. Every other byte stays as it was.
pub fn decode(word: &[u8], frame: &mut [u8]) -> Option<usize>
    ensures answer { result ≡ decoded word.now frame.old }
    ensures after { frame.new ≡ frame_after word.now frame.old }
{
    if !is_hex(word) {
        return None;
    }
    let size = word.len() / 2;
    if frame.len() < size {
        return None;
    }
    place_pairs(word, frame);
    Some(size)
}
