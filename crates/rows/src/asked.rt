// One row: what has to hold, and what the processor does otherwise.
ghost use Rattle.std.specs.Prelude.{◌≡◌};
ghost use Rattle.rows.specs.Asked.{cut_unless, failing, reject_unless};
ghost use Rattle.rows.specs.Judged.{judgement};

use verdicts::answer::{Reason, Verdict};
use verdicts::code::Code;
use verdicts::row::Row;

// A row says in one word what becomes of the frame, so there are two, and no third function with the verdict's constructor as an argument.
pub fn reject_unless(holds: bool, code: Code, row: Row) -> Result<(), Verdict>
    ensures { result ≡ judgement (failing (reject_unless holds code row)) tt }
{
    if holds {
        Ok(())
    } else {
        Err(Verdict::Rejected(Reason { code, row }))
    }
}

pub fn cut_unless(holds: bool, code: Code, row: Row) -> Result<(), Verdict>
    ensures { result ≡ judgement (failing (cut_unless holds code row)) tt }
{
    if holds {
        Ok(())
    } else {
        Err(Verdict::Cut(Reason { code, row }))
    }
}
