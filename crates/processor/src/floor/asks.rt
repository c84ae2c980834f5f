// What is asked of a day.
ghost use Rattle.std.specs.Prelude.{◌≡◌};
ghost use Rattle.day.specs.Asks.{center_sheet, consolidated_sheet};
ghost use Rattle.processor.specs.Held.{day_of};
ghost use Rattle.processor.specs.Kept.{Kept};

use crate::floor::Floor;
use search::place::find;
use states::refusal::Refusal;
use stats::plain_sheet::PlainSheet;
use stats::sale::LastSale;

impl<'a> Floor<'a> {
    pub(crate) fn center_sheet(
        &self,
        line: usize,
        symbol: &[u8],
    ) -> Result<PlainSheet<u64>, Refusal>
        requires { Kept (day_of self.now) }
        ensures { result ≡ center_sheet (day_of self.now) line symbol.now }
    {
        if line >= self.market.line_count() {
            return Err(Refusal::NoSuchLine);
        }
        let security = find(&self.market, symbol).ok_or(Refusal::NotListed)?;
        Ok(self.record(line, security).sheet)
    }

    pub(crate) fn consolidated_sheet(&self, symbol: &[u8]) -> Result<PlainSheet<LastSale>, Refusal>
        requires { Kept (day_of self.now) }
        ensures { result ≡ consolidated_sheet (day_of self.now) symbol.now }
    {
        let security = find(&self.market, symbol).ok_or(Refusal::NotListed)?;
        Ok(self.sheet(security))
    }
}
