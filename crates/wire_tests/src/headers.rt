// Which row of the header fails first.
use wire::trade_report::TradeReport;

// The number of the row that fails, or 0 where the frame reads.
fn row_of(frame: &[u8]) -> u16 {
    match TradeReport::read(frame) {
        Ok(_) => 0,
        Err(row) => u16::from(row),
    }
}

#[test]
fn blank_frames_of_every_length(rt: HostRuntime) {
    let zeros = [0; 100];
    let ones = [255; 100];
    for n in 0..101 {
        assert_eq!(rt; row_of(&zeros[0..n]), 101);
        assert_eq!(rt; row_of(&ones[0..n]), 101);
    }
}

#[test]
fn every_length_of_a_report(rt: HostRuntime) {
    let mut frame = [0; 100];
    frame[0..3].copy_from_slice(b"1TE");
    for n in 0..101 {
        let expected = match n {
            0..=2 => 101,
            72 => 0,
            _ => 103,
        };
        assert_eq!(rt; row_of(&frame[0..n]), expected);
    }
}

#[test]
fn the_first_failing_row_is_told(rt: HostRuntime) {
    assert_eq!(rt; row_of(b"2TE"), 101);
    assert_eq!(rt; row_of(b"1T"), 101);
    assert_eq!(rt; row_of(b"2AU"), 101);
    assert_eq!(rt; row_of(b"1AU"), 102);
    assert_eq!(rt; row_of(b"1ET"), 102);
    assert_eq!(rt; row_of(b"1te"), 102);
    assert_eq!(rt; row_of(b"1TE"), 103);
}
