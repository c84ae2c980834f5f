// A fault of a sheet, with the line that it stands in and a mark under the field.
use cuts::cut::part;
use sheets::cause::Cause;
use sheets::fault::Fault;
use show::fault::FaultText;
use show::quoted::Quoted;

// A function: the crate of `Cause` holds no words for people, and a type of this one round it would print these same words.
fn rule_text(cause: Cause) -> &'static str {
    match cause {
        Cause::Unended => "a line has no byte 10 at its end",
        Cause::TooLong => "a line has more than 64 bytes",
        Cause::UnknownRow => "the first field is no letter of this sheet's rows",
        Cause::FieldCount => "this kind of row has another number of fields",
        Cause::FieldForm => "the field does not have its form",
        Cause::OutOfOrder =>
            "the row stands already, or its symbol does not come after the one before",
        Cause::TooMany => "the row is one more than a sheet may have",
        Cause::Incomplete => "a list needs a security and a line",
    }
}

// What a text holds from a part on, counted from 0: the last of so many parts.
fn rest_from(text: &[u8], separator: u8, index: usize) -> &[u8] {
    text.splitn(index.saturating_add(1), |byte| *byte == separator)
        .nth(index)
        .unwrap_or(b"")
}

fn print_mark(rt: &HostRuntime, indent: usize, width: usize) -> anyhow::Result<()> {
    let width = width.max(1);
    println!(rt; "{:indent$}{:^<width$}", "", "")?;
    Ok(())
}

// How many characters some bytes take between their quotes.
fn shown(rt: &HostRuntime, bytes: &[u8]) -> anyhow::Result<usize> {
    let text = Quoted(bytes).to_string(rt.alloc())?;
    Ok(text.len().saturating_sub(2))
}

fn print_line(rt: &HostRuntime, line: &[u8], field: u8) -> anyhow::Result<()> {
    let text = Quoted(line);
    println!(rt; "  {text}")?;
    let all = shown(rt, line)?;
    let Some(index) = field.checked_sub(1) else {
        return print_mark(rt, 3, all);
    };
    let rest = shown(rt, rest_from(line, b',', usize::from(index)))?;
    let width = shown(rt, part(line, b',', usize::from(index)))?;
    print_mark(rt, all.saturating_sub(rest).saturating_add(3), width)
}

pub(crate) fn print_fault(
    rt: &HostRuntime,
    sheet: &str,
    text: &[u8],
    fault: Fault,
) -> anyhow::Result<()> {
    let told = FaultText(fault);
    let why = rule_text(fault.cause);
    println!(rt; "{sheet}: {told}: {why}")?;
    let line = fault.line;
    let index = line.saturating_sub(1);
    if rest_from(text, b'\n', index).is_empty() {
        println!(rt; "  the sheet ends before line {line}")?;
        return Ok(());
    }
    print_line(rt, part(text, b'\n', index), fault.field)
}
