// A sheet that is known to be sound: how it is made, read and added to.
ghost use Rattle.std.specs.Prelude.{◌≡◌, ◌+◌, ◌-◌, ◌^◌, ◌≤◌, true, is_ok, IfOk, if◌then◌else◌, nat_lt};
ghost use Rattle.stats.specs.Plain.{empty_sheet, last_after, noted, sound as is_sound};
ghost use Rattle.stats.specs.Reports.{Noted, Unordered, sheet_of, total};
ghost use Rattle.stats.specs.Spans.{spans};

use crate::entry::Enters;
use crate::plain_sheet::PlainSheet;
use conditions::matrix::Says;

// A sheet with both a high and a low, the low not above the high, or with neither.
#[derive(Drop)]
pub struct Sheet<Last> {
    plain: PlainSheet<Last>,
    ghost sound: { is_sound plain ≡ true },
}

// A plain record is not that of a sheet: it has a high or a low alone, or the low is above the high.
#[derive(Clone, Copy, PartialEq, Eq, Debug)]
pub struct Unsound;

// A report is refused, since the volume would pass what a sheet can hold.
#[derive(Clone, Copy, PartialEq, Eq, Debug)]
pub struct VolumeFull;

// Whether there are both a high and a low, the low not above the high, or neither.
fn is_span(high: Option<u64>, low: Option<u64>) -> bool
    ensures { result ≡ spans high low }
{
    match (high, low) {
        (Some(high), Some(low)) => low <= high,
        (None, None) => true,
        (Some(_), None) | (None, Some(_)) => false,
    }
}

// Yes sets the last; First sets it only where there is none.
fn last_after<Last: Copy>(says: Says, old: Option<Last>, new: Last) -> Option<Last>
    ensures { result ≡ last_after says old new }
{
    match (says, old) {
        (Says::Yes, _) => Some(new),
        (Says::First, None) => Some(new),
        (Says::First, Some(last)) => Some(last),
        (Says::No, last) => last,
    }
}

impl<Last: Copy> Sheet<Last> {
    ghost use Rattle.stats.specs.Sheets.{plain_of};

    // The sheet before any report.
    pub fn empty() -> Sheet<Last>
        ensures { plain_of result ≡ empty_sheet }
    {
        Sheet {
            plain: PlainSheet::default(),
        }
    }

    // The sheet of some reports, in the order in which they came.
    pub fn of<Report: Enters<Last> + Copy>(reports: &[Report]) -> Result<Sheet<Last>, VolumeFull>
        ensures test { is_ok result ≡ nat_lt (total Report.enter reports.now) (2 ^ 64) }
        ensures value { IfOk result (λ s. plain_of s ≡ sheet_of Report.enter reports.now) }
        ensures unordered { IfOk result (λ s. Unordered Report.enter reports.now (plain_of s)) }
    {
        let mut sheet = Sheet::empty();
        for report in reports {
            sheet.note(*report)?;
        }
        Ok(sheet)
    }

    // Enters a report, or alters nothing if the volume would pass 2^64 - 1. The volume comes first, so that a refusal leaves the
    // sheet as it was.
    pub fn note<Report: Enters<Last>>(&mut self, report: Report) -> Result<(), VolumeFull>
        ensures test { is_ok result ≡ nat_lt ((plain_of self.old).volume + (Report.enter report).adds) (2 ^ 64) }
        ensures after { plain_of self.new ≡ (if is_ok result then noted (plain_of self.old) (Report.enter report) else plain_of self.old) }
        ensures succeeds { (plain_of self.old).volume ≤ 2 ^ 64 - 2 ^ 32 → is_ok result ≡ true }
        ensures bound { (plain_of self.new).volume ≤ (plain_of self.old).volume + 4294967295 }
        ensures holds { is_ok result ≡ true → Noted Report.enter (plain_of self.old) report (plain_of self.new) }
    {
        let entry = report.entry();
        let sheet = &mut self.plain;
        sheet.volume = sheet
            .volume
            .checked_add(u64::from(entry.adds))
            .ok_or(VolumeFull)?;
        if let Some(price) = entry.spanned {
            // Two options, since a record that is lent may hold any values; that they agree is a fact of the sheet.
            match (sheet.high, sheet.low) {
                (Some(high), Some(low)) => {
                    sheet.high = Some(high.max(price));
                    sheet.low = Some(low.min(price));
                }
                _ => {
                    sheet.high = Some(price);
                    sheet.low = Some(price);
                }
            }
        }
        sheet.last = last_after(entry.says, sheet.last, entry.last);
        Ok(())
    }
}

impl<Last: Copy> TryFrom<PlainSheet<Last>> for Sheet<Last> {
    ghost use Rattle.stats.specs.Sheets.{plain_of};

    type Error = Unsound;

    ghost try_from_gives = { λ plain made. (is_ok made ≡ is_sound plain) × IfOk made (λ sheet. plain_of sheet ≡ plain) };

    fn try_from(plain: PlainSheet<Last>) -> Result<Sheet<Last>, Unsound> {
        if is_span(plain.high, plain.low) {
            Ok(Sheet { plain })
        } else {
            Err(Unsound)
        }
    }
}

// By reference, so that a sheet can be read and then noted on.
impl<Last: Copy> From<&Sheet<Last>> for PlainSheet<Last> {
    ghost use Rattle.stats.specs.Sheets.{plain_of};

    ghost from_gives = { λ sheet plain. (plain ≡ plain_of sheet.now) × (is_sound plain ≡ true) };

    fn from(sheet: &Sheet<Last>) -> PlainSheet<Last> {
        sheet.plain
    }
}
