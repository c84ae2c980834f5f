// The rows of a mass trading action: each where it is the first to fail, and each below every other that fails too.
use crate::told::{CONTEXT, TAKEN, Told, front, judged, put_start};
use rows::context::{Context, Phase};
use std::test::Fail;
use wire::mass_action::MassAction;

// An action on its way: the bytes in front of its fields and its length, which may be wrong, its fields, and what the processor
// knows when it comes.
#[derive(Clone, Copy)]
pub(crate) struct SentAction {
    pub(crate) version: u8,
    pub(crate) letters: [u8; 2],
    pub(crate) length: usize,
    pub(crate) action: MassAction,
    pub(crate) context: Context,
}

// An action that every row holds of.
pub(crate) const SOUND: SentAction = SentAction {
    version: b'1',
    letters: *b"AU",
    length: 60,
    action: MassAction {
        originator: *b"QU",
        timestamp1: 7,
        feed_sequence: 1,
        participant_token: 0,
        first: *b"A          ",
        last: *b"ABC        ",
        action: b'E',
        action_time: 3000,
    },
    context: CONTEXT,
};

// The rows from top to bottom, by what a frame is told where the row is the first to fail: letter, code and row. One, without a
// number, passes a frame over.
const TABLE: [(u8, u16, u16); 12] = [
    (b'C', 0, 101),
    (b'C', 0, 102),
    (b'C', 0, 103),
    (b'C', 0, 104),
    (b'P', 0, 0),
    (b'C', 0, 105),
    (b'C', 26, 1),
    (b'C', 26, 2),
    (b'C', 88, 3),
    (b'R', 88, 4),
    (b'R', 60, 5),
    (b'R', 11, 6),
];

// Makes a row fail, by its number in the table, and none above it.
fn break_row(sent: &mut SentAction, row: u16) {
    match row {
        101 => sent.version = b' ',
        102 => sent.letters = *b"AV",
        103 => sent.length = 61,
        104 => sent.action.originator = *b"Q ",
        0 => sent.context.expected_sequence = 2,
        105 => sent.context.expected_sequence = 0,
        1 => sent.action.first = *b"A         \x00",
        2 => sent.action.last = *b"\xffBC        ",
        3 => sent.action.action = 127,
        4 => sent.action.action = b'e',
        5 => sent.action.action_time = 5001,
        _ => sent.context.phase = Phase::Closed,
    }
}

// Puts each field of an action at its offset.
fn put_action(frame: &mut [u8], action: &MassAction) {
    if frame.len() >= 60 {
        frame[3..5].copy_from_slice(&action.originator);
        frame[5..13].copy_from_slice(&action.timestamp1.to_be_bytes());
        frame[13..21].copy_from_slice(&action.feed_sequence.to_be_bytes());
        frame[21..29].copy_from_slice(&action.participant_token.to_be_bytes());
        frame[29..40].copy_from_slice(&action.first);
        frame[40..51].copy_from_slice(&action.last);
        frame[51] = action.action;
        frame[52..60].copy_from_slice(&action.action_time.to_be_bytes());
    }
}

pub(crate) fn judged_action(sent: &SentAction) -> Result<Told, Fail> {
    let mut buffer = [0; 80];
    put_start(&mut buffer, sent.version, sent.letters);
    put_action(&mut buffer, &sent.action);
    judged(front(&buffer, sent.length), &sent.context)
}

#[test]
fn each_row_is_told_where_it_fails_first(rt: HostRuntime) -> Result<(), Fail> {
    assert_eq!(rt; judged_action(&SOUND)?, TAKEN);
    for (letter, code, row) in TABLE {
        let mut sent = SOUND;
        break_row(&mut sent, row);
        assert_eq!(rt; judged_action(&sent)?, Told { letter, code, row });
    }
    Ok(())
}

// A break of the earlier row may mend the later one, where both ask of one field.
#[test]
fn of_two_rows_the_earlier_one_is_told(rt: HostRuntime) -> Result<(), Fail> {
    for (place, (letter, code, row)) in TABLE.into_iter().enumerate() {
        for (_, _, later) in TABLE.into_iter().skip(place) {
            let mut sent = SOUND;
            break_row(&mut sent, later);
            break_row(&mut sent, row);
            assert_eq!(rt; judged_action(&sent)?, Told { letter, code, row });
        }
    }
    Ok(())
}
