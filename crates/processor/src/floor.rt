// All that a practice day holds.
ghost use Rattle.std.specs.Prelude.{◌≡◌, ◌*◌, ◌<◌, ◌≤◌, length, get_or};
ghost use Rattle.lists.specs.Listed.{lines_of, securities_of};

use arrayvec::ArrayVec;
use lists::market_list::MarketList;
use rows::context::Phase;
use states::line_status::LineStatus;
use states::security_status::SecurityStatus;
use stats::plain_sheet::PlainSheet;
use stats::record::MarketCenterRecord;
use stats::sale::LastSale;

pub(crate) mod asks;
pub(crate) mod calls;
pub(crate) mod effects;
pub(crate) mod frames;
pub(crate) mod making;
pub(crate) mod places;
pub(crate) mod refusals;
pub(crate) mod reports;
pub(crate) mod sends;
pub(crate) mod sweeps;

// A status for each line and for each security, and a consolidated sheet for each security, in the order of the list, in memory of its
// own. The records are lent: line after line, and in a line security after security. The sheets stand apart from what else is kept of a
// security, as in the definition of a day, since no line's call may look at them. That there is one of each stands in the type.
// What the calls ask besides has a name, and is asked: the bounds on a whole day (`Kept`) do not hold between the writes of one call,
// and that a line or a security is of the list, or has a frame left, is a fact about a call's arguments.
// These stay apart, too: of a struct of line and security half of the calls would use the line alone.
#[derive(Drop)]
pub(crate) struct Floor<'a> {
    market: MarketList,
    start: u64,
    phase: Phase,
    securities: ArrayVec<SecurityStatus, 256>,
    lines: ArrayVec<LineStatus, 16>,
    records: &'a mut [MarketCenterRecord],
    sheets: ArrayVec<PlainSheet<LastSale>, 256>,
    serial: u64,
    ghost each_line: { length lines.items ≡ length (lines_of market) },
    ghost each_security: { length securities.items ≡ length (securities_of market) },
    ghost each_sheet: { length sheets.items ≡ length (securities_of market) },
    ghost each_record: { length (lines_of market) * length (securities_of market) ≤ length records.now },
}
