// The field layer: how many fields a line has, and the form of each.
ghost use Rattle.std.specs.Prelude.{◌≡◌, Ok};
ghost use Rattle.sheets.specs.Forms.{all_visible, bucket_field, counted, originator_field, printable_field, symbol_by, symbol_field};

use crate::bucket::Bucket;
use crate::fault::FieldFault;
use cuts::cut::{field, field_count, only_byte};
use text::printable::is_printable;
use text::symbol::{Symbol, padded};

pub fn check_count(line: &[u8], number: usize) -> Result<(), FieldFault>
    ensures { result ≡ counted number line.now (Ok tt) }
{
    if field_count(line) != number {
        return Err(FieldFault::FieldCount);
    }
    Ok(())
}

// A field of one printable byte. Fields are counted from 1.
pub fn printable_field(line: &[u8], number: u8) -> Result<u8, FieldFault>
    ensures { result ≡ printable_field number line.now }
{
    only_byte(field(line, number))
        .filter(|byte| is_printable(*byte))
        .ok_or(FieldFault::FieldForm(number))
}

// A field of one digit from 1 to 4.
pub fn bucket_field(line: &[u8], number: u8) -> Result<Bucket, FieldFault>
    ensures { result ≡ bucket_field number line.now }
{
    only_byte(field(line, number))
        .and_then(|digit| Bucket::try_from(digit).ok())
        .ok_or(FieldFault::FieldForm(number))
}

// Whether every byte can be seen: printable, and no space.
fn all_visible(text: &[u8]) -> bool
    ensures { result ≡ all_visible text.now }
{
    text.iter().all(|byte| byte.is_ascii_graphic())
}

// A text of 1 to 11 visible bytes, as a symbol.
pub fn visible_symbol(text: &[u8]) -> Option<Symbol>
    ensures { result ≡ symbol_by text.now }
{
    if !all_visible(text) {
        return None;
    }
    padded(text)
}

// A field of 1 to 11 visible bytes, as a symbol.
pub fn symbol_field(line: &[u8], number: u8) -> Result<Symbol, FieldFault>
    ensures { result ≡ symbol_field number line.now }
{
    visible_symbol(field(line, number)).ok_or(FieldFault::FieldForm(number))
}

// A field of 2 visible bytes.
pub fn originator_field(line: &[u8], number: u8) -> Result<[u8; 2], FieldFault>
    ensures { result ≡ originator_field number line.now }
{
    match field(line, number) {
        text @ [first, second] if all_visible(text) => Ok([*first, *second]),
        _ => Err(FieldFault::FieldForm(number)),
    }
}
