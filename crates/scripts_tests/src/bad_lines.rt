// Lines that are no calls: the first word that is wrong is told.
use crate::expect::is_malformed;
use scripts::malformed::Malformed;
use std::test::Fail;

#[test]
fn a_call_goes_by_its_whole_name() -> Result<(), Fail> {
    is_malformed(b" ", Malformed::UnknownCall)?;
    is_malformed(b" open", Malformed::UnknownCall)?;
    is_malformed(b"Open", Malformed::UnknownCall)?;
    is_malformed(b"open\r", Malformed::UnknownCall)?;
    is_malformed(b"opens", Malformed::UnknownCall)?;
    is_malformed(b"log in 1", Malformed::UnknownCall)?;
    is_malformed(b"\r", Malformed::UnknownCall)
}

#[test]
fn each_call_has_its_number_of_words() -> Result<(), Fail> {
    is_malformed(b"login", Malformed::WordCount)?;
    is_malformed(b"login  5", Malformed::WordCount)?;
    is_malformed(b"open ", Malformed::WordCount)?;
    is_malformed(b"close now", Malformed::WordCount)?;
    is_malformed(b"hangup 1 2", Malformed::WordCount)?;
    is_malformed(b"send 1 2 3", Malformed::WordCount)?;
    is_malformed(b"inquire 99 2 3 A B", Malformed::WordCount)?;
    is_malformed(b"post A", Malformed::WordCount)
}

#[test]
fn sheets_have_two_or_three_words() -> Result<(), Fail> {
    is_malformed(b"sheet", Malformed::WordCount)?;
    is_malformed(b"sheet 1 A B", Malformed::WordCount)?;
    is_malformed(b"sheet ", Malformed::SymbolWord)?;
    is_malformed(b"sheet A A", Malformed::LineNumber)?;
    is_malformed(b"sheet  A", Malformed::LineNumber)?;
    is_malformed(b"sheet 1 ", Malformed::SymbolWord)
}

#[test]
fn lines_are_numbers() -> Result<(), Fail> {
    is_malformed(b"login ", Malformed::LineNumber)?;
    is_malformed(b"login 00", Malformed::LineNumber)?;
    is_malformed(b"login 18446744073709551616", Malformed::LineNumber)?;
    is_malformed(b"login +1", Malformed::LineNumber)?;
    is_malformed(b"login 1\r", Malformed::LineNumber)
}

#[test]
fn no_ticket_is_of_16() -> Result<(), Fail> {
    is_malformed(b"hangup 16", Malformed::LineNumber)?;
    is_malformed(b"hangup 01", Malformed::LineNumber)?;
    is_malformed(b"hangup 256", Malformed::LineNumber)?;
    is_malformed(b"send 16 x y z", Malformed::LineNumber)?;
    is_malformed(b"inquire 16 x y z", Malformed::LineNumber)
}

#[test]
fn a_time_and_a_buffer_are_told_in_order() -> Result<(), Fail> {
    is_malformed(b"send 15 18446744073709551616 65536 0", Malformed::Time)?;
    is_malformed(b"send 15 00 65535 00", Malformed::Time)?;
    is_malformed(b"send 15 0 65536 0", Malformed::Buffer)?;
    is_malformed(b"send 15 0  00", Malformed::Buffer)?;
    is_malformed(b"inquire 15 -1 65536 ~", Malformed::Time)?;
    is_malformed(b"inquire 15 0 65536 ", Malformed::Buffer)
}

#[test]
fn a_frame_is_pairs_of_hex_digits() -> Result<(), Fail> {
    is_malformed(b"send 1 2 3 ", Malformed::Hex)?;
    is_malformed(b"send 1 2 3 0", Malformed::Hex)?;
    is_malformed(b"send 1 2 3 --", Malformed::Hex)?;
    is_malformed(b"send 1 2 3 0g", Malformed::Hex)?;
    is_malformed(b"send 1 2 3 000", Malformed::Hex)?;
    is_malformed(b"send 1 2 3 00\r", Malformed::Hex)
}

#[test]
fn a_symbol_is_1_to_11_visible_bytes() -> Result<(), Fail> {
    is_malformed(b"inquire 1 2 3 ", Malformed::SymbolWord)?;
    is_malformed(b"inquire 1 2 3 ABCDEFGHIJKL", Malformed::SymbolWord)?;
    is_malformed(b"inquire 1 2 3 A\x7f", Malformed::SymbolWord)?;
    is_malformed(b"sheet A\r", Malformed::SymbolWord)?;
    is_malformed(b"post  halt", Malformed::SymbolWord)
}

#[test]
fn there_are_four_actions() -> Result<(), Fail> {
    is_malformed(b"post A ", Malformed::Action)?;
    is_malformed(b"post A Halt", Malformed::Action)?;
    is_malformed(b"post A halted", Malformed::Action)?;
    is_malformed(b"post A trade\r", Malformed::Action)
}
