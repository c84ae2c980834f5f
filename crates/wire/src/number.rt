// Unsigned numbers in a part of a frame, the highest byte first.
ghost use Rattle.std.specs.Prelude.{◌≡◌, ℕ, ◌^◌, ◌<◌, length, if◌then◌else◌, ◌==◌, is_ok};
ghost use Rattle.std.specs.Option.{option_map};
ghost use Rattle.wire.specs.Number.{bytes_of, number_in, value_of};

use crate::part::array;

// A number that some field of a frame holds. Its methods ask for a part that is as wide as the number; `read` and `write`
// refuse any other.
pub trait Number: Copy {
    const WIDTH: usize;

    ghost WIDTH: { ℕ };

    ghost value: { Self → ℕ };

    fn of_part(part: &[u8]) -> Self
        requires { length part.now ≡ WIDTH }
        ensures { value result ≡ value_of part.now };

    fn put(self, part: &mut [u8])
        requires { length part.old ≡ WIDTH }
        ensures after { part.new ≡ bytes_of WIDTH (value self) }
        ensures fits { value self < 256 ^ WIDTH };
}

#[tactic(auto, using(crate::proofs::Numbers::value_read), unfolding(crate::specs::Number::bytes_of, crate::specs::Number::value_after, crate::specs::Number::value_of))]
impl Number for u16 {
    const WIDTH: usize = 2;

    ghost WIDTH = { 2 };

    ghost value = { λ n. n };

    fn of_part(part: &[u8]) -> u16 {
        u16::from_be_bytes(array(part))
    }

    fn put(self, part: &mut [u8]) {
        part.copy_from_slice(&u16::to_be_bytes(self));
    }
}

#[tactic(auto, using(crate::proofs::Numbers::value_read), unfolding(crate::specs::Number::bytes_of, crate::specs::Number::value_after, crate::specs::Number::value_of))]
impl Number for u32 {
    const WIDTH: usize = 4;

    ghost WIDTH = { 4 };

    ghost value = { λ n. n };

    fn of_part(part: &[u8]) -> u32 {
        u32::from_be_bytes(array(part))
    }

    fn put(self, part: &mut [u8]) {
        part.copy_from_slice(&u32::to_be_bytes(self));
    }
}

#[tactic(auto, using(crate::proofs::Numbers::value_read), unfolding(crate::specs::Number::bytes_of, crate::specs::Number::value_after, crate::specs::Number::value_of))]
impl Number for u64 {
    const WIDTH: usize = 8;

    ghost WIDTH = { 8 };

    ghost value = { λ n. n };

    fn of_part(part: &[u8]) -> u64 {
        u64::from_be_bytes(array(part))
    }

    fn put(self, part: &mut [u8]) {
        part.copy_from_slice(&u64::to_be_bytes(self));
    }
}

// A part is not as wide as the number.
#[derive(Clone, Copy, PartialEq, Eq, Debug)]
pub struct WrongWidth;

// The number in a part; none where the part is not as wide as the number, the one way to be without.
pub fn read<N: Number>(part: &[u8]) -> Option<N>
    ensures { option_map N.value result ≡ number_in N.WIDTH part.now }
{
    if part.len() == N::WIDTH {
        Some(N::of_part(part))
    } else {
        None
    }
}

// Writes a number over a part, or nothing where the part is not as wide as the number.
pub fn write<N: Number>(part: &mut [u8], n: N) -> Result<(), WrongWidth>
    ensures answer { is_ok result ≡ (length part.old == N.WIDTH) }
    ensures after { part.new ≡ (if is_ok result then bytes_of N.WIDTH (N.value n) else part.old) }
{
    if part.len() != N::WIDTH {
        return Err(WrongWidth);
    }
    n.put(part);
    Ok(())
}
