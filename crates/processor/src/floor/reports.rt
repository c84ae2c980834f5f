// What a taken report does to a day.
ghost use Rattle.std.specs.Prelude.{◌≡◌, ◌+◌, ◌<◌, ◌≤◌, length, Some, slice_index_or};
ghost use Rattle.stats.specs.Entries.{consolidated_entry};
ghost use Rattle.stats.specs.Plain.{noted};
ghost use Rattle.day.specs.LineCalls.{frame_limit, record_at, report_taken, sale_of, tape_room, trade_turn};
ghost use Rattle.day.specs.State.{line_count, line_of, no_sheet, security_count};
ghost use Rattle.day.specs.Step.{buffer_after, turned};
ghost use Rattle.tape.specs.TapeLine.{tape_line};
ghost use Rattle.processor.specs.Held.{day_of};
ghost use Rattle.processor.specs.Kept.{FramesLeft, OnSecurity};

use crate::floor::Floor;
use crate::parts::{frame_consumed, report_entered, report_taken};
use stats::plain_sheet::PlainSheet;
use stats::record::MarketCenterRecord;
use stats::sale::LastSale;
use tape::tape_line::write_tape_line;
use wire::trade_report::TradeReport;

impl<'a> Floor<'a> {
    // The line's record of the security with the report.
    fn center_with(&self, line: usize, security: usize, report: &TradeReport) -> MarketCenterRecord
        requires listed { OnSecurity (day_of self.now) line security }
        requires frames_left { FramesLeft (day_of self.now) line }
        ensures { result ≡ report_taken report.now (record_at (line_of line (day_of self.now)).records security) }
    {
        report_taken(self.record(line, security), report)
    }

    // The consolidated sheet of the security with the report. A line of the list is below 16, so that the cast loses nothing.
    fn sheet_with(&self, line: usize, security: usize, report: &TradeReport) -> PlainSheet<LastSale>
        requires { OnSecurity (day_of self.now) line security }
        ensures { result ≡ noted (slice_index_or (day_of self.now).sheets security no_sheet) (consolidated_entry (record { line = line; sale = sale_of report.now })) }
    {
        report_entered(self.sheet(security), line as u8, report)
    }

    // Takes a report that no row refuses, and writes its tape line.
    pub(crate) fn take(
        &mut self,
        line: usize,
        security: usize,
        time: u64,
        report: &TradeReport,
        buffer: &mut [u8],
    )
        requires listed { OnSecurity (day_of self.old) line security }
        requires frames_left { FramesLeft (day_of self.old) line }
        requires room { tape_room ≤ length buffer.old }
        ensures leaves { day_of self.new ≡ (turned (day_of self.old) line (trade_turn line (line_of line (day_of self.old)) time (Some security) report.now)).day }
        ensures wrote { buffer.new ≡ buffer_after (tape_line (self.old.serial + 1) time report.now) buffer.old }
    {
        let status = frame_consumed(self.status(line));
        let center = self.center_with(line, security, report);
        let sheet = self.sheet_with(line, security, report);
        let serial = self.serial + 1;
        self.set_record(line, security, center);
        self.set_status(line, status);
        self.set_sheet(security, sheet, serial);
        put_line(buffer, serial, time, report);
    }
}

fn put_line(buffer: &mut [u8], serial: u64, time: u64, report: &TradeReport)
    requires { tape_room ≤ length buffer.old }
    ensures { buffer.new ≡ buffer_after (tape_line serial time report.now) buffer.old }
{
    let _ = write_tape_line(buffer, serial, time, report);
}
