// The tape line of a trade report.
ghost use Rattle.std.specs.Prelude.{◌≡◌, ◌^◌, ◌<◌, ◌≤◌, take, IfOk};
ghost use Rattle.arrayvec.specs.ArrayVec.{array_vec_len};
ghost use Rattle.tape.specs.TapeLine.{tape_line, with_line, writing_line};
ghost use Rattle.tape.specs.TapeReading.{CommaFree, ReadsBack};

use crate::line::{Line, ROOM, push_field, push_number, push_number_field, push_symbol};
use arrayvec::ArrayVec;
use wire::trade_report::{TradeReport, WriteRefusal};

#[tactic(auto, using(crate::proofs::Whole::line_pushed))]
fn line_of(serial: u64, sip_time: u64, report: &TradeReport) -> Line
    ensures items { result.items ≡ tape_line serial sip_time report.now }
    ensures short { array_vec_len result ≤ 115 }
    ensures small { report.now.volume < 2 ^ 32 }
{
    let mut line = ArrayVec::new();
    push_number(&mut line, serial);
    push_number_field(&mut line, sip_time);
    push_field(&mut line, &report.originator);
    push_symbol(&mut line, &report.symbol);
    push_number_field(&mut line, report.trade_id);
    push_field(&mut line, &[report.exempt_flag]);
    push_field(&mut line, &report.condition);
    push_number_field(&mut line, report.seller_days);
    push_field(&mut line, &[report.side]);
    push_number_field(&mut line, report.price);
    push_number_field(&mut line, report.volume);
    line.push(b'\n');
    line
}

// Writes a report's line at the front of a buffer, and answers its length; nothing where the buffer has fewer than 128
// bytes. The other bytes stay as they were. Where no comma stands in the report's texts, the line that was written
// reads back as its eleven fields.
pub fn write_tape_line(
    buffer: &mut [u8],
    serial: u64,
    sip_time: u64,
    report: &TradeReport,
) -> Result<usize, WriteRefusal>
    ensures answer { result ≡ writing_line (tape_line serial sip_time report.now) buffer.old }
    ensures after { buffer.new ≡ with_line (tape_line serial sip_time report.now) buffer.old }
    ensures short { IfOk result (λ n. n ≤ 128) }
    ensures again { IfOk result (λ n. CommaFree report.now → ReadsBack serial sip_time report.now (take n buffer.new)) }
{
    if buffer.len() < ROOM {
        return Err(WriteRefusal::ShortBuffer);
    }
    let line = line_of(serial, sip_time, report);
    let size = line.len();
    buffer[..size].copy_from_slice(line.as_slice());
    Ok(size)
}
