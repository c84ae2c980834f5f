// The rows that every kind of frame has before its own.
ghost use Rattle.std.specs.Prelude.{◌≡◌, ◌≤◌, length};
ghost use Rattle.rows.specs.Asked.{first_failing};
ghost use Rattle.rows.specs.HeaderRows.{header_rows, line_rows};
ghost use Rattle.rows.specs.Judged.{judgement};

use crate::asked::cut_unless;
use crate::context::Context;
use verdicts::answer::{Reason, Verdict};
use verdicts::code::Code;
use verdicts::row::Row;
use wire::header::check_header;
use wire::number::Number;

// Asks whether the frame is the line's next one.
fn ask_line(frame: &[u8], context: &Context) -> Result<(), Verdict>
    requires { 21 ≤ length frame.now }
    ensures { result ≡ judgement (first_failing (line_rows context.now frame.now)) tt }
{
    cut_unless(
        frame[3..5] == context.originator[..],
        Code::Header,
        Row::Originator,
    )?;
    let sequence = u64::of_part(&frame[13..21]);
    if sequence < context.expected_sequence {
        return Err(Verdict::PassedOver);
    }
    cut_unless(
        sequence <= context.expected_sequence,
        Code::Header,
        Row::FeedSequence,
    )
}

// Asks all rows of the header, for a kind that has these letters and this length.
pub(crate) fn ask_header(
    frame: &[u8],
    letters: [u8; 2],
    size: usize,
    context: &Context,
) -> Result<(), Verdict>
    requires { 21 ≤ size }
    ensures { result ≡ judgement (first_failing (header_rows letters size context.now frame.now)) tt }
{
    check_header(frame, letters, size).map_err(|row| {
        Verdict::Cut(Reason {
            code: Code::Header,
            row: Row::Header(row),
        })
    })?;
    ask_line(frame, context)
}
