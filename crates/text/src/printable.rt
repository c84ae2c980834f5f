// Printable ASCII: the bytes from 32, the space, to 126.
ghost use Rattle.std.specs.Prelude.{◌≡◌};
ghost use Rattle.text.specs.Printable.{all_printable, printable};

pub fn is_printable(byte: u8) -> bool
    ensures { result ≡ printable byte }
{
    (32..=126).contains(&byte)
}

// Whether every byte of a field is printable.
pub fn all_printable(part: &[u8]) -> bool
    ensures { result ≡ all_printable part.now }
{
    part.iter().all(|byte| is_printable(*byte))
}
