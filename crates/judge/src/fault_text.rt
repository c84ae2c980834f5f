// The first fault of a day sheet, in one line.
use sheets::fault::Fault;
use show::fault::FaultText;

// Every line before the one at fault is a row.
pub(crate) fn print_fault(rt: &HostRuntime, sheet: &str, fault: Fault) -> anyhow::Result<()> {
    let told = FaultText(fault);
    let rows = fault.line.saturating_sub(1);
    eprintln!(rt; "{sheet}: {told}, {rows} rows stand")?;
    Ok(())
}
