// The symbol of a security, as frames carry it.
ghost use Rattle.std.specs.Prelude.{◌≡◌, ◌≤◌, length, take};
ghost use Rattle.text.specs.Symbol.{precedes, symbol_of, text_of};

// Eleven bytes: 1 to 11 bytes of text, padded on the right with spaces.
pub type Symbol = [u8; 11];

// A text as a symbol; none where it is empty or longer than eleven bytes.
pub fn padded(text: &[u8]) -> Option<Symbol>
    ensures { result ≡ symbol_of text.now }
{
    let n = text.len();
    if !(1..=11).contains(&n) {
        return None;
    }
    let mut symbol = [b' '; 11];
    symbol[..n].copy_from_slice(text);
    Some(symbol)
}

// How many bytes a symbol has without its padding. By a loop: tried with `rposition`, of which the library has no lemma, the proof did
// not close; and by `split_last`, where the planted bug of `unpadded` failed at a bound, and so did one that means the same.
fn text_length(symbol: &[u8]) -> usize
    ensures within { result ≤ length symbol.now }
    ensures front { take result symbol.now ≡ text_of symbol.now }
{
    let mut n = symbol.len();
    while n > 0 && symbol[n - 1] == b' ' {
        n -= 1;
    }
    n
}

// A symbol without its padding.
pub fn unpadded(symbol: &[u8]) -> &[u8]
    ensures { result.now ≡ text_of symbol.now }
{
    let n = text_length(symbol);
    &symbol[0..n]
}

// Whether one symbol stands before another, byte by byte: the library's order of slices, under the name that definitions use.
pub fn precedes(one: &[u8], other: &[u8]) -> bool
    ensures { result ≡ precedes one.now other.now }
{
    one < other
}
