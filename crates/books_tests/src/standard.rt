// The standard code book against the published tables of sides, exempt codes and trade conditions.
use books::code_book::{CodeBook, accepts_anywhere, accepts_in_some_bucket};
use books::standard_book::StandardBook;
use sheets::bucket::Bucket;

const FLAGS: [u8; 2] = [b'X', b' '];

const SIDES: [u8; 4] = [b'B', b'S', b'X', b'R'];

const SETTLEMENTS: [u8; 5] = [b'@', b'C', b'N', b'R', b'Y'];

const REASONS: [u8; 9] = [b'F', b'O', b'4', b'5', b'6', b'7', b'8', b'9', b' '];

const HOURS: [u8; 5] = [b'T', b'L', b'Z', b'U', b' '];

const DETAILS: [u8; 17] = [
    b'1', b'A', b'B', b'D', b'E', b'G', b'H', b'I', b'K', b'M', b'P', b'Q', b'S', b'V', b'W', b'X',
    b' ',
];

const REASONS_NOT_EXEMPT: [u8; 4] = [b'O', b'5', b'6', b' '];

#[test]
fn every_byte_of_every_set(rt: HostRuntime) {
    let book = StandardBook;
    for byte in 0..=255u8 {
        assert_eq!(rt; book.accepts_flag(byte), FLAGS.contains(&byte));
        assert_eq!(rt; book.accepts_side(byte), SIDES.contains(&byte));
        assert_eq!(rt;
            book.accepts_value(Bucket::One, byte),
            SETTLEMENTS.contains(&byte)
        );
        assert_eq!(rt;
            book.accepts_value(Bucket::Two, byte),
            REASONS.contains(&byte)
        );
        assert_eq!(rt;
            book.accepts_value(Bucket::Three, byte),
            HOURS.contains(&byte)
        );
        assert_eq!(rt;
            book.accepts_value(Bucket::Four, byte),
            DETAILS.contains(&byte)
        );
    }
    assert!(rt; accepts_in_some_bucket(&book, b'W') && !accepts_in_some_bucket(&book, b'_'));
    assert!(rt; !accepts_anywhere(&book, b','));
}

#[test]
fn every_second_byte_beside_each_flag(rt: HostRuntime) {
    let book = StandardBook;
    for byte in 0..=255u8 {
        assert_eq!(rt;
            book.go_together(b'X', &[b'@', byte, b' ', b' ']),
            REASONS.contains(&byte)
        );
        assert_eq!(rt;
            book.go_together(b' ', &[b'@', byte, b' ', b' ']),
            REASONS_NOT_EXEMPT.contains(&byte)
        );
        assert!(rt; !book.go_together(b'B', &[b'@', byte, b' ', b' ']));
        assert!(rt; !book.go_together(byte, b"@F ") && !book.go_together(byte, b"@F   "));
    }
}

#[test]
fn every_byte_at_the_other_places(rt: HostRuntime) {
    let book = StandardBook;
    for flag in FLAGS {
        for byte in 0..=255u8 {
            assert_eq!(rt;
                book.go_together(flag, &[byte, b'O', b' ', b' ']),
                SETTLEMENTS.contains(&byte)
            );
            assert_eq!(rt;
                book.go_together(flag, &[b'@', b'O', byte, b' ']),
                HOURS.contains(&byte)
            );
            assert_eq!(rt;
                book.go_together(flag, &[b'@', b'O', b' ', byte]),
                DETAILS.contains(&byte)
            );
        }
    }
}
