// Scripts, line by line.
use cuts::cut::is_same;
use scripts::script_lines::{Lines, line_count};
use std::test::Fail;

#[test]
fn the_last_line_may_lack_its_end(rt: HostRuntime) {
    assert_eq!(rt; line_count(b""), 0);
    assert_eq!(rt; line_count(b"open"), 1);
    assert_eq!(rt; line_count(b"open\n"), 1);
    assert_eq!(rt; line_count(b"open\nclose"), 2);
    assert_eq!(rt; line_count(b"open\nclose\n"), 2);
}

#[test]
fn empty_lines_are_counted(rt: HostRuntime) {
    assert_eq!(rt; line_count(b"\n"), 1);
    assert_eq!(rt; line_count(b"\n\n"), 2);
    assert_eq!(rt; line_count(b"\n\nopen"), 3);
}

#[test]
fn lines_come_one_by_one(rt: HostRuntime) -> Result<(), Fail> {
    let mut lines = Lines::new(b"open\n\nclose");
    let Some(first) = lines.next() else {
        return Err(Fail::new("there is no line"));
    };
    assert!(rt; is_same(first, b"open"));
    let Some(second) = lines.next() else {
        return Err(Fail::new("there is no second line"));
    };
    assert!(rt; second.is_empty());
    let Some(third) = lines.next() else {
        return Err(Fail::new("there is no third line"));
    };
    assert!(rt; is_same(third, b"close"));
    assert!(rt; lines.next().is_none());
    Ok(())
}
