// Every row of the table of calls, with the bounds of its words.
use crate::expect::{
    asks_center, asks_consolidated, closes, hangs_up, inquires, is_passed_over, logs_in, opens,
    posts, sends,
};
use states::security_status::PostedAction;
use std::test::Fail;

#[test]
fn empty_lines_and_comments_are_passed_over() -> Result<(), Fail> {
    is_passed_over(b"")?;
    is_passed_over(b"#")?;
    is_passed_over(b"# login 5")?;
    is_passed_over(b"#login  5\r")
}

#[test]
fn any_line_may_be_logged_in_to() -> Result<(), Fail> {
    logs_in(b"login 0", 0)?;
    logs_in(b"login 16", 16)?;
    logs_in(b"login 18446744073709551615", u64::MAX)
}

#[test]
fn a_ticket_is_of_0_to_15() -> Result<(), Fail> {
    hangs_up(b"hangup 0", 0)?;
    hangs_up(b"hangup 9", 9)?;
    hangs_up(b"hangup 15", 15)
}

#[test]
fn a_day_is_opened_and_closed() -> Result<(), Fail> {
    opens(b"open")?;
    closes(b"close")
}

#[test]
fn a_frame_is_sent(rt: HostRuntime) -> Result<(), Fail> {
    sends(&rt, b"send 0 0 0 -", 0, 0, 0, b"")?;
    sends(
        &rt,
        b"send 15 18446744073709551615 65535 00",
        15,
        u64::MAX,
        65535,
        b"\0",
    )?;
    sends(
        &rt,
        b"send 3 34200000000000 120 3162fFA9",
        3,
        34200000000000,
        120,
        b"1b\xff\xa9",
    )
}

#[test]
fn a_security_is_inquired_after() -> Result<(), Fail> {
    inquires(b"inquire 0 0 0 A", 0, 0, 0, b"A          ")?;
    inquires(
        b"inquire 15 18446744073709551615 65535 ABCDEFGHIJK",
        15,
        u64::MAX,
        65535,
        b"ABCDEFGHIJK",
    )?;
    inquires(b"inquire 7 5 33 !,~", 7, 5, 33, b"!,~        ")
}

#[test]
fn four_actions_are_posted() -> Result<(), Fail> {
    posts(b"post ZVZZT halt", b"ZVZZT      ", PostedAction::Halt)?;
    posts(b"post ZVZZT pause", b"ZVZZT      ", PostedAction::Pause)?;
    posts(b"post halt quote", b"halt       ", PostedAction::Quote)?;
    posts(b"post - trade", b"-          ", PostedAction::Trade)
}

#[test]
fn sheets_are_asked_for() -> Result<(), Fail> {
    asks_center(b"sheet 0 A", 0, b"A          ")?;
    asks_center(
        b"sheet 18446744073709551615 ABCDEFGHIJK",
        u64::MAX,
        b"ABCDEFGHIJK",
    )?;
    asks_consolidated(b"sheet A", b"A          ")?;
    asks_consolidated(b"sheet 0", b"0          ")
}
