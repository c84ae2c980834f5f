// Tape lines, byte for byte.
use std::test::Fail;
use tape::tape_line::write_tape_line;
use wire::trade_report::TradeReport;

const PLAIN: TradeReport = TradeReport {
    originator: *b"QU",
    timestamp1: 1763476200000000000,
    feed_sequence: 1,
    participant_token: 7001,
    timestamp2: 1763476199999750000,
    symbol: *b"ABC        ",
    trade_id: 1,
    exempt_flag: b'X',
    condition: *b"@F  ",
    seller_days: 0,
    side: b'B',
    price: 10500000,
    volume: 200,
};

const LARGEST: TradeReport = TradeReport {
    originator: *b"QU",
    timestamp1: 0,
    feed_sequence: 0,
    participant_token: 0,
    timestamp2: 0,
    symbol: *b"ABCDEFGHIJK",
    trade_id: 4294967295,
    exempt_flag: b' ',
    condition: *b"@OT1",
    seller_days: 65535,
    side: b'S',
    price: 18446744073709551615,
    volume: 4294967295,
};

const SMALLEST: TradeReport = TradeReport {
    originator: *b"  ",
    timestamp1: 1,
    feed_sequence: 1,
    participant_token: 1,
    timestamp2: 1,
    symbol: *b"           ",
    trade_id: 0,
    exempt_flag: b' ',
    condition: *b"    ",
    seller_days: 0,
    side: b' ',
    price: 0,
    volume: 0,
};

// Whether a line is all that is written into a buffer of 130 bytes, and its length is answered.
fn is_line(serial: u64, sip_time: u64, report: &TradeReport, line: &[u8]) -> bool {
    let mut buffer = [7; 130];
    let untouched = [7; 130];
    match write_tape_line(&mut buffer, serial, sip_time, report) {
        Ok(n) => n == line.len()
            && buffer[0..n] == line[0..n]
            && buffer[n..130] == untouched[n..130],
        Err(_) => false,
    }
}

#[test]
fn fields_stand_between_commas(rt: HostRuntime) {
    assert!(rt;
        is_line(
            1,
            5000,
            &PLAIN,
            b"1,5000,QU,ABC,1,X,@F  ,0,B,10500000,200\n",
        )
    );
}

#[test]
fn the_serial_and_the_time_stand_in_front(rt: HostRuntime) {
    assert!(rt;
        is_line(
            907,
            10,
            &PLAIN,
            b"907,10,QU,ABC,1,X,@F  ,0,B,10500000,200\n",
        )
    );
}

#[test]
fn the_longest_line_has_115_bytes(rt: HostRuntime) {
    let line =
        b"18446744073709551615,18446744073709551615,QU,ABCDEFGHIJK,4294967295, ,@OT1,65535,S,18446744073709551615,4294967295\n";
    assert_eq!(rt; line.len(), 115);
    assert!(rt; is_line(18446744073709551615, 18446744073709551615, &LARGEST, line));
}

#[test]
fn zeros_are_one_digit_and_a_blank_symbol_is_empty(rt: HostRuntime) {
    assert!(rt; is_line(0, 0, &SMALLEST, b"0,0,  ,,0, ,    ,0, ,0,0\n"));
}

#[test]
fn a_buffer_of_128_bytes_is_enough(rt: HostRuntime) -> Result<(), Fail> {
    let mut buffer = [7; 128];
    match write_tape_line(&mut buffer, 1, 5000, &PLAIN) {
        Ok(n) => assert_eq!(rt; n, 40),
        Err(_) => return Err(Fail::new("128 bytes are enough")),
    }
    assert!(rt; &buffer[0..40] == b"1,5000,QU,ABC,1,X,@F  ,0,B,10500000,200\n".as_slice());
    assert!(rt; buffer[40..128] == [7; 88]);
    Ok(())
}

#[test]
fn a_buffer_of_127_bytes_stays_as_it_was(rt: HostRuntime) -> Result<(), Fail> {
    let mut buffer = [7; 127];
    match write_tape_line(&mut buffer, 1, 5000, &PLAIN) {
        Ok(_) => return Err(Fail::new("127 bytes are too few")),
        Err(refusal) => assert_eq!(rt; u16::from(refusal), 6),
    }
    assert!(rt; buffer == [7; 127]);
    Ok(())
}
