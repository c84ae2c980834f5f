// A market list of five securities: A, AB, ABC, B and BA.
use lists::list_row::ListRow;
use lists::list_sheet::read_list;
use lists::market_list::MarketList;
use std::test::Fail;

pub(crate) fn five() -> Result<MarketList, Fail> {
    let mut table = [ListRow::Line([0, 0]); 6];
    match read_list(b"S,A\nS,AB\nS,ABC\nS,B\nS,BA\nL,xy\n", &mut table) {
        Ok(count) => Ok(MarketList::of_rows(&table[0..count])),
        Err(_) => Err(Fail::new("the sheet was refused")),
    }
}
