// The regular trade report: 72 bytes, kind TE.
ghost use Rattle.std.specs.Prelude.{◌≡◌, ◌≤◌, length, take, IfOk, Ok, OnOk};
ghost use Rattle.text.specs.Buffer.{overwritten};
ghost use Rattle.wire.specs.TradeReport.{fields_of, frame_of, header_bytes, refusal_number, report_in, trade_bytes, TypedHeader, TypedTrade, writing, written};

use crate::header::{HeaderRow, check_header};
use crate::number::Number;
use crate::part::array;
use text::symbol::Symbol;

const LETTERS: [u8; 2] = *b"TE";

const LENGTH: usize = 72;

// Every field of the frame after the letters of its kind.
#[derive(Clone, Copy, PartialEq, Eq, Debug)]
pub struct TradeReport {
    // the participant that the report comes from
    pub originator: [u8; 2],
    // the participant's time, in nanoseconds
    pub timestamp1: u64,
    // the number of the frame on its line
    pub feed_sequence: u64,
    // a number of the participant's own, passed through
    pub participant_token: u64,
    pub timestamp2: u64,
    pub symbol: Symbol,
    // the number of the report among the line's reports of this security
    pub trade_id: u32,
    // the trade-through exempt flag
    pub exempt_flag: u8,
    // the sale condition, a byte for each of four buckets
    pub condition: [u8; 4],
    // the days until the seller delivers
    pub seller_days: u16,
    // the side of execution
    pub side: u8,
    // in millionths of a dollar
    pub price: u64,
    pub volume: u32,
}

#[derive(Clone, Copy, PartialEq, Eq, Debug)]
pub enum WriteRefusal {
    ShortBuffer,
}

// A refusal's number among those of the calls.
impl From<WriteRefusal> for u16 {
    ghost from_gives = { λ refusal number. number ≡ refusal_number refusal };

    fn from(refusal: WriteRefusal) -> u16 {
        match refusal {
            WriteRefusal::ShortBuffer => 6,
        }
    }
}

fn fields(frame: &[u8]) -> TradeReport
    requires { length frame.now ≡ 72 }
    ensures { result ≡ fields_of frame.now }
{
    TradeReport {
        originator: array(&frame[3..5]),
        timestamp1: u64::of_part(&frame[5..13]),
        feed_sequence: u64::of_part(&frame[13..21]),
        participant_token: u64::of_part(&frame[21..29]),
        timestamp2: u64::of_part(&frame[29..37]),
        symbol: array(&frame[37..48]),
        trade_id: u32::of_part(&frame[48..52]),
        exempt_flag: frame[52],
        condition: array(&frame[53..57]),
        seller_days: u16::of_part(&frame[57..59]),
        side: frame[59],
        price: u64::of_part(&frame[60..68]),
        volume: u32::of_part(&frame[68..72]),
    }
}

// The fields that every kind of frame begins with.
fn place_header(report: &TradeReport, buffer: &mut [u8])
    requires { 72 ≤ length buffer.old }
    ensures after { buffer.new ≡ overwritten buffer.old 0 (header_bytes report.now) }
    ensures typed { TypedHeader report.now }
{
    buffer[0..3].copy_from_slice(b"1TE");
    buffer[3..5].copy_from_slice(&report.originator);
    report.timestamp1.put(&mut buffer[5..13]);
    report.feed_sequence.put(&mut buffer[13..21]);
    report.participant_token.put(&mut buffer[21..29]);
}

// The fields of the trade.
fn place_trade(report: &TradeReport, buffer: &mut [u8])
    requires { 72 ≤ length buffer.old }
    ensures after { buffer.new ≡ overwritten buffer.old 29 (trade_bytes report.now) }
    ensures typed { TypedTrade report.now }
{
    report.timestamp2.put(&mut buffer[29..37]);
    buffer[37..48].copy_from_slice(&report.symbol);
    report.trade_id.put(&mut buffer[48..52]);
    buffer[52] = report.exempt_flag;
    buffer[53..57].copy_from_slice(&report.condition);
    report.seller_days.put(&mut buffer[57..59]);
    buffer[59] = report.side;
    report.price.put(&mut buffer[60..68]);
    report.volume.put(&mut buffer[68..72]);
}

impl TradeReport {
    // Reads a frame. Writing what was read gives the same 72 bytes.
    pub fn read(frame: &[u8]) -> Result<TradeReport, HeaderRow>
        ensures value { result ≡ report_in frame.now }
        ensures again { IfOk result (λ report. frame_of report ≡ frame.now) }
    {
        check_header(frame, LETTERS, LENGTH)?;
        Ok(fields(frame))
    }

    // Writes 72 bytes at the front of a buffer, or nothing where the buffer is shorter; the other bytes stay as they
    // were. Reading what was written gives the same fields.
    pub fn write(&self, buffer: &mut [u8]) -> Result<(), WriteRefusal>
        ensures answer { result ≡ writing buffer.old }
        ensures after { buffer.new ≡ written self.now buffer.old }
        ensures again { OnOk result (report_in (take 72 buffer.new) ≡ Ok self.now) }
    {
        if buffer.len() < LENGTH {
            return Err(WriteRefusal::ShortBuffer);
        }
        place_header(self, buffer);
        place_trade(self, buffer);
        Ok(())
    }
}
