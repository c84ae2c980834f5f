// What a frame does to the parts of a day, each by itself.
ghost use Rattle.std.specs.Prelude.{◌≡◌, ◌*◌, ◌<◌, ◌≤◌, true};
ghost use Rattle.stats.specs.Entries.{consolidated_entry};
ghost use Rattle.stats.specs.Plain.{noted, sound};
ghost use Rattle.day.specs.Laws.{highest_volume};
ghost use Rattle.day.specs.LineCalls.{consumes_id, frame_consumed, frame_limit, id_consumed, report_taken, sale_of};

use noting::plain_sheet::sheet_after;
use states::line_status::LineStatus;
use stats::plain_sheet::PlainSheet;
use stats::record::MarketCenterRecord;
use stats::sale::{LastSale, LineSale, Sale};
use verdicts::row::Row;
use wire::trade_report::TradeReport;

// A volume, with the bound that its four bytes give, which the prover knows only where a field is read.
fn four_bytes(volume: u32) -> u32
    ensures value { result ≡ volume }
    ensures small { result ≤ highest_volume }
{
    volume
}

// What the statistics read of a report.
pub(crate) fn sale_of(report: &TradeReport) -> Sale
    ensures value { result ≡ sale_of report.now }
    ensures small { result.volume ≤ highest_volume }
{
    Sale {
        condition: report.condition,
        price: report.price,
        volume: four_bytes(report.volume),
    }
}

// Whether a report that fails a row consumes its trade id: from row 5 on, as the rule has it, by the row's number.
pub(crate) fn consumes_id(row: Row) -> bool
    ensures { result ≡ consumes_id row }
{
    match row {
        Row::Trade(row) => u16::from(row) >= 5,
        Row::Header(_) | Row::Originator | Row::FeedSequence | Row::MassAction(_) => false,
    }
}

// The status of a line that consumed one more frame.
pub(crate) fn frame_consumed(status: LineStatus) -> LineStatus
    requires { (status.consumed < frame_limit) × (status.expected_sequence ≤ frame_limit) }
    ensures { result ≡ frame_consumed status }
{
    LineStatus {
        expected_sequence: status.expected_sequence + 1,
        consumed: status.consumed + 1,
        ..status
    }
}

// The record of a line whose report was rejected after its trade id was seen to be the expected one.
pub(crate) fn id_consumed(center: MarketCenterRecord) -> MarketCenterRecord
    requires { center.next_trade_id ≤ frame_limit }
    ensures { result ≡ id_consumed center }
{
    MarketCenterRecord {
        next_trade_id: center.next_trade_id + 1,
        ..center
    }
}

// The record of a line whose report was taken.
pub(crate) fn report_taken(center: MarketCenterRecord, report: &TradeReport) -> MarketCenterRecord
    requires { (center.next_trade_id ≤ frame_limit) × ((sound center.sheet ≡ true) × (center.sheet.volume ≤ frame_limit * highest_volume)) }
    ensures { result ≡ report_taken report.now center }
{
    match sheet_after(center.sheet, sale_of(report)) {
        Some(sheet) => MarketCenterRecord {
            next_trade_id: center.next_trade_id + 1,
            sheet,
            ..center
        },
        None => unreachable!(),
    }
}

// The consolidated sheet of a security with a report that a line brought.
pub(crate) fn report_entered(
    sheet: PlainSheet<LastSale>,
    line: u8,
    report: &TradeReport,
) -> PlainSheet<LastSale>
    requires { (sound sheet ≡ true) × (sheet.volume ≤ 16 * (frame_limit * highest_volume)) }
    ensures { result ≡ noted sheet (consolidated_entry (record { line = line; sale = sale_of report.now })) }
{
    let sale = LineSale {
        line,
        sale: sale_of(report),
    };
    match sheet_after(sheet, sale) {
        Some(after) => after,
        None => unreachable!(),
    }
}
