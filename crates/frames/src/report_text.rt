// A trade report as text, a line for each field.
use conditions::condition::effects;
use conditions::matrix::Says;
use show::quoted::Quoted;
use std::fmt::Display;
use text::symbol::unpadded;
use wire::trade_report::TradeReport;

fn print_field<Value: Display + Drop>(
    rt: &HostRuntime,
    name: &str,
    value: Value,
) -> anyhow::Result<()> {
    println!(rt; "  {name:<18}{value}")?;
    Ok(())
}

fn print_header(rt: &HostRuntime, report: &TradeReport) -> anyhow::Result<()> {
    print_field(rt, "originator", Quoted(&report.originator))?;
    print_field(rt, "timestamp1", report.timestamp1)?;
    print_field(rt, "feed sequence", report.feed_sequence)?;
    print_field(rt, "participant token", report.participant_token)
}

fn print_trade(rt: &HostRuntime, report: &TradeReport) -> anyhow::Result<()> {
    print_field(rt, "timestamp2", report.timestamp2)?;
    print_field(rt, "symbol", Quoted(unpadded(&report.symbol)))?;
    print_field(rt, "trade id", report.trade_id)?;
    print_field(rt, "exempt flag", Quoted(&[report.exempt_flag]))?;
    print_field(rt, "sale condition", Quoted(&report.condition))?;
    print_field(rt, "seller days", report.seller_days)?;
    print_field(rt, "side", Quoted(&[report.side]))?;
    print_field(rt, "price", report.price)?;
    print_field(rt, "volume", report.volume)
}

// A function: the crate of `Says` holds no words for people, and a type of this one round it would print these same words.
fn says_text(says: Says) -> &'static str {
    match says {
        Says::Yes => "Yes",
        Says::First => "First",
        Says::No => "No",
    }
}

// What a sale condition says to the high, low and last of a sheet.
fn print_prices(rt: &HostRuntime, name: &str, high_low: Says, last: Says) -> anyhow::Result<()> {
    let high_low = says_text(high_low);
    let last = says_text(last);
    println!(rt; "  {name:<18}high/low {high_low}, last {last}")?;
    Ok(())
}

// What the sale condition says to the sheets.
fn print_effects(rt: &HostRuntime, condition: [u8; 4]) -> anyhow::Result<()> {
    let said = effects(condition);
    print_prices(
        rt,
        "consolidated",
        said.consolidated_high_low,
        said.consolidated_last,
    )?;
    print_prices(rt, "market center", said.center_high_low, said.center_last)?;
    print_field(rt, "counts for volume", says_text(said.volume))
}

// Prints the fields, writes the report again, and says whether that gives the frame.
pub(crate) fn print_report(
    rt: &HostRuntime,
    report: &TradeReport,
    frame: &[u8],
) -> anyhow::Result<()> {
    print_header(rt, report)?;
    print_trade(rt, report)?;
    print_effects(rt, report.condition)?;
    let mut again = [0; 72];
    let same = report.write(&mut again).is_ok() && &again[..] == frame;
    let verdict = if same {
        "the same 72 bytes"
    } else {
        "other bytes"
    };
    print_field(rt, "written again", verdict)
}
