// Lines: their ends, and their length.
use crate::expect::{book_passes, book_tells, list_tells};
use sheets::fault::Layer;
use std::test::Fail;

#[test]
fn a_tail_is_told_at_its_own_line(rt: HostRuntime) -> Result<(), Fail> {
    list_tells(&rt, b"S,A", Layer::Line, 201, 1, 0)?;
    list_tells(&rt, b"S,A\nL,xy", Layer::Line, 201, 2, 0)?;
    list_tells(&rt, b"S,A\nL,xy\n ", Layer::Line, 201, 3, 0)?;
    book_tells(&rt, b"E", Layer::Line, 201, 1, 0)?;
    book_tells(&rt, b"E,@\nD,B", Layer::Line, 201, 2, 0)
}

#[test]
fn a_tail_comes_after_the_faults_of_earlier_lines(rt: HostRuntime) -> Result<(), Fail> {
    list_tells(&rt, b"X\nS,A", Layer::Field, 203, 1, 1)?;
    list_tells(&rt, b"S,B\nS,A\nL", Layer::Sheet, 206, 2, 0)?;
    book_tells(&rt, b"E,@\nE,@\nE", Layer::Sheet, 206, 2, 0)
}

// The last byte of each of these is its line's end.
#[test]
fn a_line_has_at_most_64_bytes(rt: HostRuntime) -> Result<(), Fail> {
    let of_64 = b"0123456789012345678901234567890123456789012345678901234567890123\n";
    let of_65 = b"01234567890123456789012345678901234567890123456789012345678901234\n";
    let tail_of_65 = b"01234567890123456789012345678901234567890123456789012345678901234";
    list_tells(&rt, of_64, Layer::Field, 203, 1, 1)?;
    book_tells(&rt, of_64, Layer::Field, 203, 1, 1)?;
    list_tells(&rt, of_65, Layer::Line, 202, 1, 0)?;
    book_tells(&rt, of_65, Layer::Line, 202, 1, 0)?;
    list_tells(&rt, tail_of_65, Layer::Line, 201, 1, 0)
}

#[test]
fn a_sheet_of_no_bytes_has_no_lines(rt: HostRuntime) -> Result<(), Fail> {
    list_tells(&rt, b"", Layer::Sheet, 208, 1, 0)?;
    book_passes(&rt, b"", 0)
}
