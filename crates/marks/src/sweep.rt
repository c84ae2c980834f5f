// A mass trading action over the records of one line.
ghost use Rattle.std.specs.Prelude.{◌≡◌, ◌+◌, ◌<◌, ◌≤◌, ◌++◌, length, take, drop};
ghost use Rattle.lists.specs.Listed.{securities_of};
ghost use Rattle.marks.specs.Sweep.{is_swept, sweep_leaves, sweep_tells, swept, swept_count, swept_record};

use crate::range::SymbolRange;
use crate::trading_action::TradingAction;
use lists::market_list::MarketList;
use stats::record::MarketCenterRecord;
use text::symbol::Symbol;

// An action, and the range of securities that it is for.
#[derive(Clone, Copy, PartialEq, Eq, Debug)]
pub struct Sweep {
    pub action: TradingAction,
    pub range: SymbolRange,
}

impl Sweep {
    // Whether the action is applied to a security, by its symbol and the line's record of it.
    pub fn is_applied(&self, symbol: &Symbol, record: &MarketCenterRecord) -> bool
        ensures { result ≡ is_swept self.now.action self.now.range symbol.now «record».now }
    {
        self.range.reaches(symbol) && self.action.is_applied(record.quote_mark)
    }

    // The line's record of a security after it.
    pub fn record_after(&self, symbol: &Symbol, record: &MarketCenterRecord) -> MarketCenterRecord
        ensures { result ≡ swept_record self.now.action self.now.range symbol.now «record».now }
    {
        let mut after = *record;
        if self.range.reaches(symbol) {
            after.quote_mark = self.action.mark_after(record.quote_mark);
        }
        after
    }

    // The same at the record itself, and whether the action was applied there.
    fn mark(&self, symbol: &Symbol, record: &mut MarketCenterRecord) -> bool
        ensures applied { result ≡ is_swept self.now.action self.now.range symbol.now «record».old }
        ensures after { «record».new ≡ swept_record self.now.action self.now.range symbol.now «record».old }
    {
        let applied = self.is_applied(symbol, record);
        *record = self.record_after(symbol, record);
        applied
    }

    // Applies the action to the records of one line, which begin at an index of a slice with the records of all lines: one for
    // each security, in the order of the list. The answer is to how many securities it was applied. Where the slice ends before
    // the last security's record there is no answer, and nothing changes.
    pub fn apply(
        &self,
        market: &MarketList,
        records: &mut [MarketCenterRecord],
        from: usize,
    ) -> Option<usize>
        ensures count { result ≡ sweep_tells self.now.action self.now.range (securities_of market.now) records.old from }
        ensures after { records.new ≡ sweep_leaves self.now.action self.now.range (securities_of market.now) records.old from }
    {
        if records.get(from..)?.len() < market.security_count() {
            return None;
        }
        // By index, and counted while the records are written: tried as a `zip` over the records, nothing was known of them after it.
        let mut count = 0;
        for (security, symbol) in market.symbols().iter().enumerate() {
            if self.mark(symbol, &mut records[from + security]) {
                count += 1;
            }
        }
        Some(count)
    }
}
