// Numbers of a script: decimal, without leading zeros.
ghost use Rattle.std.specs.Prelude.{◌≡◌, ℕ, ◌^◌, ◌<◌, ◌||◌, IfSome, Some, decimal, ◌==◌, slice_index};
ghost use Rattle.scripts.specs.Number.{leading_zero, number_in};

use std::str::from_utf8;

// Whether a sign stands in front, or a zero in front of other digits.
fn has_prefix(word: &[u8]) -> bool
    ensures { result ≡ (slice_index word.now 0 == 43 || leading_zero word.now) }
{
    matches!(word, [b'+', ..] | [b'0', _, ..])
}

// The number below 2^64 whose decimal numeral the word is, if there is one.
pub fn number_in(word: &[u8]) -> Option<u64>
    ensures value { result ≡ number_in word.now }
    ensures written { IfSome result (λ n. word.now ≡ decimal n) }
    ensures every { (n : ℕ) → n < 2 ^ 64 → word.now ≡ decimal n → result ≡ Some n }
{
    if has_prefix(word) {
        return None;
    }
    from_utf8(word).ok()?.parse().ok()
}
