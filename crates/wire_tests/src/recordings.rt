// Recordings, whole and cut.
use std::test::Fail;
use wire::recording::{Cut, front_frame};

// How many bytes the frame in front has; 1,000,000 where a length is cut, and 2,000,000 where a frame is.
fn size_in_front(rest: &[u8]) -> usize {
    match front_frame(rest) {
        Ok(frame) => frame.len(),
        Err(Cut::InLength) => 1_000_000,
        Err(Cut::InFrame) => 2_000_000,
    }
}

#[test]
fn frames_stand_behind_their_length(rt: HostRuntime) {
    assert_eq!(rt; size_in_front(b"\x00\x00"), 0);
    assert_eq!(rt; size_in_front(b"\x00\x03abc"), 3);
    assert_eq!(rt; size_in_front(b"\x00\x03abcd"), 3);
    assert_eq!(rt; size_in_front(b""), 1_000_000);
    assert_eq!(rt; size_in_front(b"\x00"), 1_000_000);
    assert_eq!(rt; size_in_front(b"\x00\x03ab"), 2_000_000);
    assert_eq!(rt; size_in_front(b"\x01\x00abcdef"), 2_000_000);
}

#[test]
fn the_frame_begins_past_its_length(rt: HostRuntime) -> Result<(), Fail> {
    match front_frame(b"\x00\x02xyz") {
        Ok(frame) => {
            assert!(rt; frame == b"xy".as_slice());
            Ok(())
        },
        Err(_) => Err(Fail::new("the frame is all there")),
    }
}
