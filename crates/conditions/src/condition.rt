// A sale condition: four bytes, which together say to each statistic what the strongest of them says.
ghost use Rattle.std.specs.Prelude.{◌≡◌, not, slice_index};
ghost use Rattle.conditions.specs.Condition.{beats, together, condition_effects, counted, is_no, none_bars};

use crate::matrix::{Effects, Says, byte_effects};

// No beats First, and First beats Yes.
fn stronger(a: Says, b: Says) -> Says
    ensures { result ≡ beats a b }
{
    a.max(b)
}

fn combined(a: Effects, b: Effects) -> Effects
    ensures { result ≡ together a b }
{
    Effects {
        consolidated_high_low: stronger(a.consolidated_high_low, b.consolidated_high_low),
        consolidated_last: stronger(a.consolidated_last, b.consolidated_last),
        center_high_low: stronger(a.center_high_low, b.center_high_low),
        center_last: stronger(a.center_last, b.center_last),
        volume: stronger(a.volume, b.volume),
    }
}

// What the four bytes of a condition say together. They count for volume unless one of them says No to it.
pub fn effects(condition: [u8; 4]) -> Effects
    ensures value { result ≡ condition_effects condition }
    ensures volume { not (is_no result.volume) ≡ none_bars (slice_index condition 0) (slice_index condition 1) (slice_index condition 2) (slice_index condition 3) }
{
    let [a, b, c, d] = condition;
    let front = combined(byte_effects(a), byte_effects(b));
    let back = combined(byte_effects(c), byte_effects(d));
    combined(front, back)
}

// Whether a report with this condition counts for volume: none of its bytes says No to it.
pub fn counts(condition: [u8; 4]) -> bool
    ensures value { result ≡ counted condition }
    ensures bytes { result ≡ none_bars (slice_index condition 0) (slice_index condition 1) (slice_index condition 2) (slice_index condition 3) }
{
    effects(condition).volume != Says::No
}
