// Answers to inquiries, byte for byte.
use inquiry::inquiry::Inquiry;
use inquiry::security_state::SecurityState;
use std::test::Fail;

const HALTED: Inquiry = Inquiry {
    sip_time: 5000,
    symbol: *b"ABC        ",
    next_trade_id: 66051,
    action_number: 3,
    state: SecurityState::Halted,
};

const FIRST: Inquiry = Inquiry {
    sip_time: 72623859790382856,
    symbol: *b"ABCDEFGHIJK",
    next_trade_id: 4294967295,
    action_number: 1,
    state: SecurityState::Trading,
};

#[test]
fn answers_write_byte_by_byte(rt: HostRuntime) {
    let mut buffer = [7; 35];
    assert!(rt; HALTED.write(&mut buffer).is_ok());
    assert!(rt;
        buffer
            == *b"\x31\x63\x53\x53\x55\x00\x00\x00\x00\x00\x00\x13\x88\x41\x42\x43\x20\x20\x20\x20\x20\x20\x20\x20\x00\x01\x02\x03\x00\x00\x00\x03\x48\x07\x07"
    );
    assert!(rt; FIRST.write(&mut buffer).is_ok());
    assert!(rt;
        buffer
            == *b"1cSSU\x01\x02\x03\x04\x05\x06\x07\x08ABCDEFGHIJK\xff\xff\xff\xff\x00\x00\x00\x01T\x07\x07"
    );
}

#[test]
fn a_buffer_of_33_bytes_is_enough(rt: HostRuntime) {
    let mut buffer = [7; 33];
    assert!(rt; HALTED.write(&mut buffer).is_ok());
    assert!(rt;
        buffer
            == *b"1cSSU\x00\x00\x00\x00\x00\x00\x13\x88ABC        \x00\x01\x02\x03\x00\x00\x00\x03H"
    );
}

#[test]
fn a_buffer_of_32_bytes_stays_as_it_was(rt: HostRuntime) -> Result<(), Fail> {
    let mut buffer = [7; 32];
    match HALTED.write(&mut buffer) {
        Ok(()) => return Err(Fail::new("32 bytes are too few")),
        Err(refusal) => assert_eq!(rt; u16::from(refusal), 6),
    }
    assert!(rt; buffer == [7; 32]);
    Ok(())
}

#[test]
fn each_state_has_its_letter(rt: HostRuntime) {
    assert_eq!(rt; u8::from(SecurityState::Trading), 84);
    assert_eq!(rt; u8::from(SecurityState::Quoting), 81);
    assert_eq!(rt; u8::from(SecurityState::Paused), 80);
    assert_eq!(rt; u8::from(SecurityState::Halted), 72);
}
