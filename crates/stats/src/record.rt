// What the processor keeps for one line and one security.
ghost use Rattle.std.specs.Prelude.{◌≡◌};
ghost use Rattle.stats.specs.Records.{fresh_record};

use crate::plain_sheet::PlainSheet;

// Whether a mass trading action lets the line quote the security.
#[derive(Clone, Copy, PartialEq, Eq, Debug)]
pub enum QuoteMark {
    Welcome,
    Barred,
}

// A market center's record of one security: the trade id that its next report must have, its quote mark and its sheet.
#[derive(Clone, Copy, PartialEq, Eq, Debug)]
pub struct MarketCenterRecord {
    pub next_trade_id: u32,
    pub quote_mark: QuoteMark,
    pub sheet: PlainSheet<u64>,
}

impl MarketCenterRecord {
    // The record before any report and any mass trading action.
    pub fn fresh() -> MarketCenterRecord
        ensures { result ≡ fresh_record }
    {
        MarketCenterRecord {
            next_trade_id: 1,
            quote_mark: QuoteMark::Welcome,
            sheet: PlainSheet::default(),
        }
    }
}
