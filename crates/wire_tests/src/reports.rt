// Whole trade reports, byte for byte.
use std::test::Fail;
use wire::trade_report::TradeReport;

struct Case {
    frame: [u8; 72],
    report: TradeReport,
}

const CASES: [Case; 3] = [
    Case {
        frame: *b"\x31\x54\x45\x51\x55\x18\x79\x20\x42\xb6\xdb\x10\x00\x00\x00\x00\x00\x00\x00\x00\x01\x00\x00\x00\x00\x00\x00\x1b\x59\x18\x79\x20\x42\xb6\xd7\x3f\x70\x41\x42\x43\x20\x20\x20\x20\x20\x20\x20\x20\x00\x00\x00\x01\x58\x40\x46\x20\x20\x00\x00\x42\x00\x00\x00\x00\x00\xa0\x37\xa0\x00\x00\x00\xc8",
        report: TradeReport {
            originator: *b"QU",
            timestamp1: 1763476200000000000,
            feed_sequence: 1,
            participant_token: 7001,
            timestamp2: 1763476199999750000,
            symbol: *b"ABC        ",
            trade_id: 1,
            exempt_flag: 88,
            condition: *b"@F  ",
            seller_days: 0,
            side: 66,
            price: 10500000,
            volume: 200,
        },
    },
    Case {
        frame: *b"\x31\x54\x45\x4a\x55\x00\x00\x00\x00\x00\x00\x00\x01\xff\xff\xff\xff\xff\xff\xff\xff\x01\x02\x03\x04\x05\x06\x07\x08\x11\x12\x13\x14\x15\x16\x17\x18\x41\x42\x43\x44\x45\x46\x47\x48\x49\x4a\x4b\xa1\xa2\xa3\xa4\x20\x52\x36\x54\x49\xb1\xb2\x53\xc1\xc2\xc3\xc4\xc5\xc6\xc7\xc8\xd1\xd2\xd3\xd4",
        report: TradeReport {
            originator: *b"JU",
            timestamp1: 1,
            feed_sequence: 18446744073709551615,
            participant_token: 72623859790382856,
            timestamp2: 1230066625199609624,
            symbol: *b"ABCDEFGHIJK",
            trade_id: 2711790500,
            exempt_flag: 32,
            condition: *b"R6TI",
            seller_days: 45490,
            side: 83,
            price: 13961937044701104072,
            volume: 3520254932,
        },
    },
    Case {
        frame: *b"\x31\x54\x45\x00\xff\x80\x00\x00\x00\x00\x00\x00\x00\x00\x00\x00\x00\x00\x00\x00\x00\xff\xff\xff\xff\xff\xff\xff\xff\x00\x00\x00\x00\x00\x00\x00\x00\x1f\x20\x20\x20\x20\x20\x20\x20\x20\x20\x20\x00\x00\x00\x00\x07\x00\x01\x02\x03\xff\xff\xff\x00\x00\x00\x00\x00\x00\x00\x00\xff\xff\xff\xff",
        report: TradeReport {
            originator: *b"\x00\xff",
            timestamp1: 9223372036854775808,
            feed_sequence: 0,
            participant_token: 18446744073709551615,
            timestamp2: 0,
            symbol: *b"\x1f          ",
            trade_id: 0,
            exempt_flag: 7,
            condition: *b"\x00\x01\x02\x03",
            seller_days: 65535,
            side: 255,
            price: 0,
            volume: 4294967295,
        },
    },
];

#[test]
fn frames_read_field_by_field(rt: HostRuntime) {
    for case in &CASES {
        assert!(rt; TradeReport::read(&case.frame) == Ok(case.report));
    }
}

#[test]
fn reports_write_byte_by_byte(rt: HostRuntime) {
    for case in &CASES {
        let mut buffer = [7; 80];
        assert!(rt; case.report.write(&mut buffer).is_ok());
        assert!(rt; buffer[0..72] == case.frame[0..72]);
        assert!(rt; buffer[72..80] == [7; 8]);
    }
}

#[test]
fn short_buffers_stay_as_they_were(rt: HostRuntime) -> Result<(), Fail> {
    let mut buffer = [7; 71];
    match CASES[0].report.write(&mut buffer) {
        Ok(()) => return Err(Fail::new("71 bytes are too few")),
        Err(refusal) => assert_eq!(rt; u16::from(refusal), 6),
    }
    assert!(rt; buffer == [7; 71]);
    Ok(())
}
