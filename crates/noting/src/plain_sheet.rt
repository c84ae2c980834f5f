// A report entered on a sheet that is kept as a plain record.
ghost use Rattle.std.specs.Prelude.{◌≡◌, true, IfSome};
ghost use Rattle.stats.specs.Plain.{sound};
ghost use Rattle.noting.specs.Noting.{noted_if};

use stats::entry::Enters;
use stats::plain_sheet::PlainSheet;
use stats::sheet::Sheet;

// The sheet after a report; none where the record is not sound, or where the volume would pass 2^64 - 1.
pub fn sheet_after<Last: Copy, Report: Enters<Last> + Copy>(
    plain: PlainSheet<Last>,
    report: Report,
) -> Option<PlainSheet<Last>>
    ensures value { result ≡ noted_if plain (Report.enter report) }
    ensures kept { IfSome result (λ s. sound s ≡ true) }
{
    let mut sheet = Sheet::try_from(plain).ok()?;
    sheet.note(report).ok()?;
    Some(PlainSheet::from(&sheet))
}
