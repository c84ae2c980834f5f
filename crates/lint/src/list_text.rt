// What a list sheet holds.
use crate::fault_text::print_fault;
use files::sheet::{LIST_TABLE, list_rows};
use lists::list_row::ListRow;
use lists::market_list::MarketList;
use show::quoted::Quoted;
use text::symbol::unpadded;

// The words of this program, with the rows' own fields quoted.
fn print_row(rt: &HostRuntime, row: &ListRow) -> anyhow::Result<()> {
    match row {
        ListRow::Security(symbol) => {
            let symbol = Quoted(unpadded(symbol));
            println!(rt; "  security {symbol}")?;
        }
        ListRow::Line(originator) => {
            let originator = Quoted(originator);
            println!(rt; "  line {originator}")?;
        }
    }
    Ok(())
}

// Prints a list sheet or its first fault, and says whether it is faultless.
pub(crate) fn check_list(rt: &HostRuntime, text: &[u8]) -> anyhow::Result<bool> {
    let mut table = LIST_TABLE;
    match list_rows(text, &mut table) {
        Ok(rows) => {
            let list = MarketList::of_rows(rows);
            let securities = list.security_count();
            let lines = list.line_count();
            println!(rt; "list: securities {securities}, lines {lines}")?;
            for row in rows {
                print_row(rt, row)?;
            }
            Ok(true)
        }
        Err(fault) => {
            print_fault(rt, "list", text, fault)?;
            Ok(false)
        }
    }
}
