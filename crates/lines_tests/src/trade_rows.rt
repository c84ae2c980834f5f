// The rows of a trade report: each where it is the first to fail, and each below every other that fails too.
use crate::told::{CONTEXT, SHEET, TAKEN, Told, front, judged_by_sheet, put_start};
use rows::context::{Context, Phase};
use std::process::Abort;
use std::test::Fail;
use wire::trade_report::TradeReport;

// A report on its way: the bytes in front of its fields and its length, which may be wrong, its fields, and what the processor
// knows when it comes.
#[derive(Clone, Copy)]
pub(crate) struct SentReport {
    pub(crate) version: u8,
    pub(crate) letters: [u8; 2],
    pub(crate) length: usize,
    pub(crate) report: TradeReport,
    pub(crate) context: Context,
}

// A report that every row holds of.
pub(crate) const SOUND: SentReport = SentReport {
    version: b'1',
    letters: *b"TE",
    length: 72,
    report: TradeReport {
        originator: *b"QU",
        timestamp1: 7,
        feed_sequence: 1,
        participant_token: 0,
        timestamp2: 6,
        symbol: *b"ABC        ",
        trade_id: 1,
        exempt_flag: b' ',
        condition: *b"@  I",
        seller_days: 0,
        side: b'B',
        price: 10500000,
        volume: 200,
    },
    context: CONTEXT,
};

// The rows from top to bottom, by what a frame is told where the row is the first to fail: letter, code and row. One, without a
// number, passes a frame over.
const TABLE: [(u8, u16, u16); 21] = [
    (b'C', 0, 101),
    (b'C', 0, 102),
    (b'C', 0, 103),
    (b'C', 0, 104),
    (b'P', 0, 0),
    (b'C', 0, 105),
    (b'C', 26, 1),
    (b'R', 26, 2),
    (b'R', 92, 3),
    (b'R', 92, 4),
    (b'C', 87, 5),
    (b'R', 87, 6),
    (b'C', 31, 7),
    (b'R', 31, 8),
    (b'R', 31, 9),
    (b'R', 31, 10),
    (b'R', 32, 11),
    (b'C', 33, 12),
    (b'R', 33, 13),
    (b'R', 29, 14),
    (b'R', 11, 15),
];

// Makes a row fail, by its number in the table, and none above it.
fn break_row(sent: &mut SentReport, row: u16) {
    match row {
        101 => sent.version = b'2',
        102 => sent.letters = *b"TI",
        103 => sent.length = 71,
        104 => sent.report.originator = *b"JU",
        0 => sent.context.expected_sequence = 2,
        105 => sent.context.expected_sequence = 0,
        1 => sent.report.symbol = *b"ABC\x1f       ",
        2 => sent.context.security = None,
        3 => sent.report.trade_id = 2,
        4 => sent.report.trade_id = 0,
        5 => sent.report.exempt_flag = 7,
        6 => sent.report.exempt_flag = b'Y',
        7 => sent.report.condition = *b"@  \x7f",
        8 => sent.report.condition = *b"@  Q",
        9 => sent.report.condition = *b"@ I ",
        10 => sent.report.condition = *b"@F  ",
        11 => sent.report.seller_days = 2,
        12 => sent.report.side = 0,
        13 => sent.report.side = b'X',
        14 => sent.report.volume = 0,
        _ => sent.context.phase = Phase::Fresh,
    }
}

// What a report is told by the book of a sheet.
pub(crate) fn judged_report_by(
    rt: &impl Abort,
    sheet: &[u8],
    sent: &SentReport,
) -> Result<Told, Fail> {
    let mut buffer = [0; 80];
    assert!(rt; sent.report.write(&mut buffer).is_ok());
    put_start(&mut buffer, sent.version, sent.letters);
    judged_by_sheet(sheet, front(&buffer, sent.length), &sent.context)
}

pub(crate) fn judged_report(rt: &impl Abort, sent: &SentReport) -> Result<Told, Fail> {
    judged_report_by(rt, SHEET, sent)
}

#[test]
fn each_row_is_told_where_it_fails_first(rt: HostRuntime) -> Result<(), Fail> {
    assert_eq!(rt; judged_report(&rt, &SOUND)?, TAKEN);
    for (letter, code, row) in TABLE {
        let mut sent = SOUND;
        break_row(&mut sent, row);
        assert_eq!(rt; judged_report(&rt, &sent)?, Told { letter, code, row });
    }
    Ok(())
}

// A break of the earlier row may mend the later one, where both ask of one field.
#[test]
fn of_two_rows_the_earlier_one_is_told(rt: HostRuntime) -> Result<(), Fail> {
    for (place, (letter, code, row)) in TABLE.into_iter().enumerate() {
        for (_, _, later) in TABLE.into_iter().skip(place) {
            let mut sent = SOUND;
            break_row(&mut sent, later);
            break_row(&mut sent, row);
            assert_eq!(rt; judged_report(&rt, &sent)?, Told { letter, code, row });
        }
    }
    Ok(())
}
