// The bytes of a field.
ghost use Rattle.std.specs.Prelude.{◌≡◌, length};

// The bytes of a part, as an array as wide as the part.
pub(crate) fn array<const N: usize>(part: &[u8]) -> [u8; N]
    requires { length part.now ≡ N }
    ensures { result ≡ part.now }
{
    match <[u8; N]>::try_from(part) {
        Ok(bytes) => bytes,
        Err(_) => unreachable(),
    }
}
