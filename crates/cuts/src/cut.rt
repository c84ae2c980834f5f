// A text cut at a separator, as a sheet is cut into lines and a line into fields.
ghost use Rattle.std.specs.Prelude.{◌≡◌, ◌==◌, length, count_by, position};
ghost use Rattle.std.specs.Str.{bytes_eq};
ghost use Rattle.cuts.specs.Cut.{field_count, field_of, first_part, has, only_byte, part_at, parts, past};

// The index of the first separator, if there is one.
fn place(text: &[u8], separator: u8) -> Option<usize>
    ensures { result ≡ position (λ byte. byte == separator) text.now }
{
    text.iter().position(|byte| *byte == separator)
}

// The library's `contains`, under the word of the definition.
pub fn contains(text: &[u8], separator: u8) -> bool
    ensures { result ≡ has separator text.now }
{
    text.contains(&separator)
}

// The bytes before the first separator; all where there is none.
pub fn first_part(text: &[u8], separator: u8) -> &[u8]
    ensures { result.now ≡ first_part separator text.now }
{
    match place(text, separator) {
        Some(n) => &text[..n],
        None => text,
    }
}

// The bytes past the first separator; none where there is none.
pub fn after_first(text: &[u8], separator: u8) -> &[u8]
    ensures { result.now ≡ past separator text.now }
{
    match place(text, separator) {
        Some(n) => &text[n + 1..],
        None => b"",
    }
}

// How many parts a text has: one more than its separators.
pub fn part_count(text: &[u8], separator: u8) -> usize
    ensures { result ≡ length (parts separator text.now) }
{
    text.split(|byte| *byte == separator).count()
}

// A part of a text, counted from 0; empty where the text has fewer.
pub fn part(text: &[u8], separator: u8, index: usize) -> &[u8]
    ensures { result.now ≡ part_at separator index text.now }
{
    text.split(|byte| *byte == separator)
        .nth(index)
        .unwrap_or(b"")
}

// How many fields a line has: one more than its commas.
pub fn field_count(line: &[u8]) -> usize
    ensures { result ≡ field_count line.now }
{
    part_count(line, b',')
}

// A field of a line, counted from 1; empty where the line has fewer.
pub fn field(line: &[u8], number: u8) -> &[u8]
    ensures { result.now ≡ field_of number line.now }
{
    part(line, b',', usize::from(number).saturating_sub(1))
}

// The byte of a field that is one byte long.
pub fn only_byte(part: &[u8]) -> Option<u8>
    ensures { result ≡ only_byte part.now }
{
    match part {
        [byte] => Some(*byte),
        _ => None,
    }
}

// The library's equality of slices, of a slice and an array too, where `==` would have to be told the array's slice.
pub fn is_same(one: &[u8], other: &[u8]) -> bool
    ensures { result ≡ bytes_eq one.now other.now }
{
    one == other
}
