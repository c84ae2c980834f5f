// The sheets of a recording's reports, as if every one of them were taken.
use indexmap::{IndexMap, IndexSet};
use show::quoted::Quoted;
use stats::entry::Enters;
use stats::plain_sheet::PlainSheet;
use stats::sale::{LastSale, LineSale, Sale};
use stats::sheet::Sheet;
use std::alloc::{AllocError, Global};
use std::fmt;
use std::hash::Hash;
use text::symbol::{Symbol, unpadded};
use wire::trade_report::TradeReport;

// Maps keep the order of first reports. A line is the place of its originator among those met so far.
#[derive(Drop)]
pub struct Board {
    originators: IndexSet<[u8; 2]>,
    centers: IndexMap<(u8, Symbol), Sheet<u64>>,
    consolidated: IndexMap<Symbol, Sheet<LastSale>>,
}

// A number that may be missing, as a sheet's high, low or last before any report that sets it.
#[derive(Drop)]
struct OrDash<T>(Option<T>);

impl<T: fmt::Display> fmt::Display for OrDash<T> {
    fn fmt<W: fmt::Write>(&self, f: &mut fmt::Formatter<W>) -> fmt::Result {
        match &self.0 {
            Some(n) => write!(f, "{n}"),
            None => f.write_str("-"),
        }
    }
}

// Enters a report on its key's sheet, which stays as it was where the volume would pass what a sheet can hold.
fn enter<Key: Eq + Hash + Drop, Last: Copy, Report: Enters<Last> + Drop>(
    sheets: &mut IndexMap<Key, Sheet<Last>>,
    key: Key,
    report: Report,
) -> Result<(), AllocError> {
    let _ = sheets.entry(key)?.or_insert(Sheet::empty()).note(report);
    Ok(())
}

// A center's sheet and the consolidated one are printed in other words, so each has its line.
fn print_center(
    rt: &HostRuntime,
    symbol: &Symbol,
    line: u8,
    originator: &[u8],
    sheet: &Sheet<u64>,
) -> anyhow::Result<()> {
    let symbol = Quoted(unpadded(symbol));
    let from = Quoted(originator);
    let sheet = PlainSheet::from(sheet);
    let high = OrDash(sheet.high);
    let low = OrDash(sheet.low);
    let last = OrDash(sheet.last);
    let volume = sheet.volume;
    println!(rt;
        "  {symbol} of line {line}, {from}: high {high} low {low} last {last} volume {volume}"
    )?;
    Ok(())
}

fn print_consolidated(
    rt: &HostRuntime,
    symbol: &Symbol,
    sheet: &Sheet<LastSale>,
) -> anyhow::Result<()> {
    let symbol = Quoted(unpadded(symbol));
    let sheet = PlainSheet::from(sheet);
    let high = OrDash(sheet.high);
    let low = OrDash(sheet.low);
    let last = OrDash(sheet.last.map(|last| last.price));
    let line = OrDash(sheet.last.map(|last| last.line));
    let volume = sheet.volume;
    println!(rt;
        "  {symbol} consolidated: high {high} low {low} last {last} line {line} volume {volume}"
    )?;
    Ok(())
}

impl Board {
    pub(crate) fn new(heap: Global) -> Board {
        Board {
            originators: IndexSet::new(heap),
            centers: IndexMap::new(heap),
            consolidated: IndexMap::new(heap),
        }
    }

    pub(crate) fn note(&mut self, report: &TradeReport) -> anyhow::Result<()> {
        let sale = Sale {
            condition: report.condition,
            price: report.price,
            volume: report.volume,
        };
        // from the 256th originator on all share the last number
        let (place, _) = self.originators.insert_full(report.originator)?;
        let line = u8::try_from(place).unwrap_or(u8::MAX);
        enter(&mut self.centers, (line, report.symbol), sale)?;
        enter(
            &mut self.consolidated,
            report.symbol,
            LineSale { line, sale },
        )?;
        Ok(())
    }

    pub(crate) fn print(&self, rt: &HostRuntime) -> anyhow::Result<()> {
        println!(rt; "sheets, as if every report were taken:")?;
        for (symbol, sheet) in self.consolidated.iter() {
            print_consolidated(rt, symbol, sheet)?;
            for ((line, other), center) in self.centers.iter() {
                if other == symbol {
                    if let Some(originator) = self.originators.get_index(usize::from(*line)) {
                        print_center(rt, symbol, *line, originator, center)?;
                    }
                }
            }
        }
        Ok(())
    }
}
