// How a market list is made of the rows of a list sheet, and what it tells.
ghost use Rattle.std.specs.Prelude.{◌≡◌, ◌≤◌, length};
ghost use Rattle.lists.specs.ListRows.{lines, list_rules, securities};
ghost use Rattle.lists.specs.Market.{Commaless, at_index};
ghost use Rattle.sheets.specs.Reading.{Faultless};
ghost use Rattle.lists.specs.Listed.{lines_of, securities_of};

use crate::list_row::ListRow;
use crate::market_list::MarketList;
use arrayvec::ArrayVec;
use text::symbol::Symbol;

impl MarketList {
    // Takes the rows of a faultless sheet, as `read_list` has just passed them, so that nothing is left to refuse.
    pub fn of_rows(rows: &[ListRow]) -> MarketList
        requires { Faultless list_rules rows.now }
        ensures symbols { securities_of result ≡ securities rows.now }
        ensures originators { lines_of result ≡ lines rows.now }
    {
        let mut symbols = ArrayVec::new();
        let mut originators = ArrayVec::new();
        for row in rows {
            match row {
                ListRow::Security(symbol) => symbols.push(*symbol),
                ListRow::Line(originator) => originators.push(*originator),
            }
        }
        MarketList {
            symbols,
            originators,
        }
    }

    // The symbols of its securities, ascending.
    pub fn symbols(&self) -> &[Symbol]
        ensures { result.now ≡ securities_of self.now }
    {
        &self.symbols
    }

    // The originators of its lines, in the order of their rows.
    pub fn originators(&self) -> &[[u8; 2]]
        ensures { result.now ≡ lines_of self.now }
    {
        &self.originators
    }

    // Securities and lines differ in type, and each call is one of the library's.
    pub fn security_count(&self) -> usize
        ensures value { result ≡ length (securities_of self.now) }
        ensures bound { (1 ≤ result) × (result ≤ 256) }
    {
        self.symbols.len()
    }

    // The symbol of a security; securities are numbered from 0.
    pub fn symbol(&self, security: usize) -> Option<Symbol>
        ensures value { result ≡ at_index (securities_of self.now) security }
        ensures plain { Commaless result }
    {
        self.symbols().get(security).copied()
    }

    pub fn line_count(&self) -> usize
        ensures value { result ≡ length (lines_of self.now) }
        ensures bound { (1 ≤ result) × (result ≤ 16) }
    {
        self.originators.len()
    }

    // The originator of a line; lines are numbered from 0 in the order of their rows.
    pub fn originator(&self, line: usize) -> Option<[u8; 2]>
        ensures value { result ≡ at_index (lines_of self.now) line }
        ensures plain { Commaless result }
    {
        self.originators().get(line).copied()
    }
}
