// Making what a day holds.
ghost use Rattle.std.specs.Prelude.{◌≡◌, ◌*◌, ◌≤◌, length, replicate};
ghost use Rattle.lists.specs.Listed.{lines_of, securities_of};
ghost use Rattle.states.specs.LineStatus.{fresh_line};
ghost use Rattle.states.specs.SecurityStatus.{fresh_security};
ghost use Rattle.day.specs.State.{fresh_day, no_sheet};
ghost use Rattle.processor.specs.Held.{cleared, day_of};
ghost use Rattle.processor.specs.Making.{making};

use crate::floor::Floor;
use arrayvec::ArrayVec;
use lists::market_list::MarketList;
use rows::context::Phase;
use states::line_status::LineStatus;
use states::refusal::Refusal;
use states::security_status::SecurityStatus;
use stats::plain_sheet::PlainSheet;
use stats::record::MarketCenterRecord;
use stats::sale::LastSale;
use stats::sheet::Sheet;

// How many records a day over a market list needs.
fn records_needed(market: &MarketList) -> usize
    ensures { result ≡ length (lines_of market.now) * length (securities_of market.now) }
{
    market.line_count() * market.security_count()
}

// Whether a day can be made with these records. It takes nothing.
pub(crate) fn check_making(
    market: &MarketList,
    records: &[MarketCenterRecord],
) -> Result<(), Refusal>
    ensures { result ≡ making (securities_of market.now) (lines_of market.now) records.now }
{
    if records.len() < records_needed(market) {
        return Err(Refusal::TooFewRecords);
    }
    Ok(())
}

// Clears so many records, from the first on.
fn clear(records: &mut [MarketCenterRecord], count: usize)
    requires { count ≤ length records.old }
    ensures { records.new ≡ cleared count records.old }
{
    records[..count].fill(MarketCenterRecord::fresh());
}

// So many of one value. Filled by a loop: `extend` gives a `Result`, and that it is never an error would be one more thing to show.
fn filled<T: Copy + Default, const N: usize>(value: T, count: usize) -> ArrayVec<T, N>
    requires { count ≤ N }
    ensures { result.items ≡ replicate count value }
{
    let mut items = ArrayVec::new();
    for _ in 0..count {
        items.push(value);
    }
    items
}

impl<'a> Floor<'a> {
    pub(crate) fn fresh(
        market: MarketList,
        start: u64,
        records: &'a mut [MarketCenterRecord],
    ) -> Floor<'a>
        requires { length (lines_of market) * length (securities_of market) ≤ length records.old }
        ensures { day_of result ≡ fresh_day (securities_of market) (lines_of market) start records.old }
    {
        clear(records, records_needed(&market));
        let securities = filled(SecurityStatus::default(), market.security_count());
        let lines = filled(LineStatus::default(), market.line_count());
        let sheets = filled(PlainSheet::default(), market.security_count());
        Floor {
            market,
            start,
            phase: Phase::Fresh,
            securities,
            lines,
            records,
            sheets,
            serial: 0,
        }
    }
}
