// Fields: a row's letter, how many fields it has, and the form of each.
use crate::expect::{book_passes, book_tells, list_passes, list_tells};
use sheets::fault::Layer;
use std::test::Fail;

#[test]
fn a_letter_is_the_whole_first_field(rt: HostRuntime) -> Result<(), Fail> {
    list_tells(&rt, b"\n", Layer::Field, 203, 1, 1)?;
    list_tells(&rt, b"SS,A\n", Layer::Field, 203, 1, 1)?;
    list_tells(&rt, b",S\n", Layer::Field, 203, 1, 1)?;
    list_tells(&rt, b"s,A\n", Layer::Field, 203, 1, 1)?;
    list_tells(&rt, b"E,@\n", Layer::Field, 203, 1, 1)?;
    list_tells(&rt, b"S,A\n\nL,xy\n", Layer::Field, 203, 2, 1)?;
    book_tells(&rt, b"\n", Layer::Field, 203, 1, 1)?;
    book_tells(&rt, b"S,A\n", Layer::Field, 203, 1, 1)?;
    book_tells(&rt, b"E,@\nEE,@\n", Layer::Field, 203, 2, 1)
}

#[test]
fn each_row_has_its_number_of_fields(rt: HostRuntime) -> Result<(), Fail> {
    list_tells(&rt, b"S\n", Layer::Field, 204, 1, 0)?;
    list_tells(&rt, b"S,A,\n", Layer::Field, 204, 1, 0)?;
    list_tells(&rt, b"L\n", Layer::Field, 204, 1, 0)?;
    list_tells(&rt, b"L,xy,z\n", Layer::Field, 204, 1, 0)?;
    book_tells(&rt, b"E\n", Layer::Field, 204, 1, 0)?;
    book_tells(&rt, b"D,B,C\n", Layer::Field, 204, 1, 0)?;
    book_tells(&rt, b"C,1\n", Layer::Field, 204, 1, 0)?;
    book_tells(&rt, b"C,1,@,\n", Layer::Field, 204, 1, 0)?;
    book_tells(&rt, b"N,@\n", Layer::Field, 204, 1, 0)
}

#[test]
fn a_symbol_has_1_to_11_visible_bytes(rt: HostRuntime) -> Result<(), Fail> {
    list_tells(&rt, b"S,\n", Layer::Field, 205, 1, 2)?;
    list_tells(&rt, b"S,ABCDEFGHIJKL\n", Layer::Field, 205, 1, 2)?;
    list_tells(&rt, b"S,A B\n", Layer::Field, 205, 1, 2)?;
    list_tells(&rt, b"S,\x7f\n", Layer::Field, 205, 1, 2)?;
    list_passes(&rt, b"S,!\nS,ABCDEFGHIJK\nS,~\nL,xy\n", 4)
}

#[test]
fn an_originator_has_2_visible_bytes(rt: HostRuntime) -> Result<(), Fail> {
    list_tells(&rt, b"L,x\n", Layer::Field, 205, 1, 2)?;
    list_tells(&rt, b"L,xyz\n", Layer::Field, 205, 1, 2)?;
    list_tells(&rt, b"L,x \n", Layer::Field, 205, 1, 2)?;
    list_tells(&rt, b"L, y\n", Layer::Field, 205, 1, 2)?;
    list_passes(&rt, b"L,!~\nS,A\n", 2)
}

#[test]
fn a_code_is_one_printable_byte(rt: HostRuntime) -> Result<(), Fail> {
    book_tells(&rt, b"E,\n", Layer::Field, 205, 1, 2)?;
    book_tells(&rt, b"E,@@\n", Layer::Field, 205, 1, 2)?;
    book_tells(&rt, b"D,\x1f\n", Layer::Field, 205, 1, 2)?;
    book_tells(&rt, b"D,\x7f\n", Layer::Field, 205, 1, 2)?;
    book_tells(&rt, b"N,,@\n", Layer::Field, 205, 1, 2)?;
    book_tells(&rt, b"N,@,\n", Layer::Field, 205, 1, 3)?;
    book_tells(&rt, b"N,,\n", Layer::Field, 205, 1, 2)?;
    book_passes(&rt, b"E, \nE,~\nD, \nN, ,~\n", 4)
}

#[test]
fn a_bucket_is_a_digit_from_1_to_4(rt: HostRuntime) -> Result<(), Fail> {
    book_tells(&rt, b"C,5,@\n", Layer::Field, 205, 1, 2)?;
    book_tells(&rt, b"C,0,@\n", Layer::Field, 205, 1, 2)?;
    book_tells(&rt, b"C,11,@\n", Layer::Field, 205, 1, 2)?;
    book_tells(&rt, b"C,,@\n", Layer::Field, 205, 1, 2)?;
    book_tells(&rt, b"C,1,\n", Layer::Field, 205, 1, 3)?;
    book_tells(&rt, b"C,5,\n", Layer::Field, 205, 1, 2)?;
    book_passes(&rt, b"C,1,@\nC,2,@\nC,3,@\nC,4,@\n", 4)
}
