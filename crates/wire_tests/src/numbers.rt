// Big-endian numbers in parts.
use wire::number::{WrongWidth, read, write};

#[test]
fn the_highest_byte_comes_first(rt: HostRuntime) {
    assert_eq!(rt; read::<u16>(&[1, 2]), Some(258));
    assert_eq!(rt; read::<u32>(&[1, 2, 3, 4]), Some(16909060));
    assert_eq!(rt;
        read::<u64>(&[1, 2, 3, 4, 5, 6, 7, 8]),
        Some(72623859790382856)
    );
    assert_eq!(rt; read::<u64>(&[255; 8]), Some(18446744073709551615));
}

#[test]
fn other_widths_are_refused(rt: HostRuntime) {
    assert_eq!(rt; read::<u16>(&[1]), None);
    assert_eq!(rt; read::<u16>(&[1, 2, 3]), None);
    assert_eq!(rt; read::<u32>(&[1, 2, 3]), None);
    assert_eq!(rt; read::<u64>(&[]), None);
    let mut part = [7; 3];
    assert_eq!(rt; write(&mut part, 1u16), Err(WrongWidth));
    assert_eq!(rt; write(&mut part, 1u32), Err(WrongWidth));
    assert_eq!(rt; write(&mut part, 1u64), Err(WrongWidth));
    assert!(rt; part == [7; 3]);
}

#[test]
fn numbers_are_written_whole(rt: HostRuntime) {
    let mut two = [7; 2];
    let mut four = [7; 4];
    let mut eight = [7; 8];
    assert!(rt; write(&mut two, 258u16).is_ok() && two == [1, 2]);
    assert!(rt; write(&mut four, 16909060u32).is_ok() && four == [1, 2, 3, 4]);
    assert!(rt;
        write(&mut eight, 72623859790382856u64).is_ok() && eight == [1, 2, 3, 4, 5, 6, 7, 8]
    );
}
