// What stands at the places of a day, and what is put there.
ghost use Rattle.std.specs.Prelude.{◌≡◌, ◌+◌, ◌*◌, ◌<◌, ◌≤◌, length, slice_index_or};
ghost use Rattle.states.specs.LineStatus.{fresh_line};
ghost use Rattle.states.specs.SecurityStatus.{fresh_security};
ghost use Rattle.day.specs.LineCalls.{record_at};
ghost use Rattle.day.specs.Operator.{in_phase, status_at};
ghost use Rattle.day.specs.State.{line_count, line_of, no_sheet, security_count};
ghost use Rattle.processor.specs.Kept.{AtPlace};
ghost use Rattle.processor.specs.Held.{day_of, with_market, with_record, with_security, with_sheet, with_status};

use crate::floor::Floor;
use rows::context::Phase;
use states::line_status::LineStatus;
use states::security_status::SecurityStatus;
use stats::plain_sheet::PlainSheet;
use stats::record::MarketCenterRecord;
use stats::sale::LastSale;

// Each kind of place has an array of its own, so that each has its two lines.
impl<'a> Floor<'a> {
    pub(crate) fn status(&self, line: usize) -> LineStatus
        requires { line < line_count (day_of self.now).market }
        ensures { result ≡ (line_of line (day_of self.now)).status }
    {
        self.lines[line]
    }

    pub(crate) fn set_status(&mut self, line: usize, status: LineStatus)
        requires { line < line_count (day_of self.old).market }
        ensures { day_of self.new ≡ with_status (day_of self.old) line status }
    {
        self.lines[line] = status;
    }

    // The index of a line's record of a security among all records.
    fn place(&self, line: usize, security: usize) -> usize
        requires { AtPlace (day_of self.now) line security }
        ensures value { result ≡ line * security_count (day_of self.now).market + security }
        ensures within { result < length self.now.records.now }
    {
        line * self.market.security_count() + security
    }

    pub(crate) fn record(&self, line: usize, security: usize) -> MarketCenterRecord
        requires { AtPlace (day_of self.now) line security }
        ensures { result ≡ record_at (line_of line (day_of self.now)).records security }
    {
        self.records[self.place(line, security)]
    }

    pub(crate) fn set_record(&mut self, line: usize, security: usize, center: MarketCenterRecord)
        requires { AtPlace (day_of self.old) line security }
        ensures { day_of self.new ≡ with_record (day_of self.old) line security center }
    {
        let place = self.place(line, security);
        self.records[place] = center;
    }

    pub(crate) fn sheet(&self, security: usize) -> PlainSheet<LastSale>
        requires { security < security_count (day_of self.now).market }
        ensures { result ≡ slice_index_or (day_of self.now).sheets security no_sheet }
    {
        self.sheets[security]
    }

    // Puts the sheet with a report, and the report's serial, which go together.
    pub(crate) fn set_sheet(&mut self, security: usize, sheet: PlainSheet<LastSale>, serial: u64)
        requires { security < security_count (day_of self.old).market }
        ensures { day_of self.new ≡ with_sheet (day_of self.old) security sheet serial }
    {
        self.sheets[security] = sheet;
        self.serial = serial;
    }

    pub(crate) fn security(&self, security: usize) -> SecurityStatus
        requires { security < security_count (day_of self.now).market }
        ensures { result ≡ status_at (day_of self.now).market security }
    {
        self.securities[security]
    }

    pub(crate) fn set_security(&mut self, security: usize, status: SecurityStatus)
        requires { security < security_count (day_of self.old).market }
        ensures { day_of self.new ≡ with_market (day_of self.old) (with_security (day_of self.old).market security status) }
    {
        self.securities[security] = status;
    }

    pub(crate) fn set_phase(&mut self, phase: Phase)
        ensures { day_of self.new ≡ with_market (day_of self.old) (in_phase phase (day_of self.old).market) }
    {
        self.phase = phase;
    }
}
