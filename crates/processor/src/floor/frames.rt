// What becomes of a frame that was judged.
ghost use Rattle.std.specs.Prelude.{◌≡◌, ◌<◌, [], IfSome, slice_index_or};
ghost use Rattle.wire.specs.Part.{part};
ghost use Rattle.verdicts.specs.Answer.{failed};
ghost use Rattle.day.specs.Call.{answered};
ghost use Rattle.day.specs.LineCalls.{after_verdict, context_of, expected_id, frame_limit, frame_place, quiet};
ghost use Rattle.day.specs.State.{line_count, line_of, security_count};
ghost use Rattle.day.specs.Step.{turned};
ghost use Rattle.processor.specs.Held.{day_of};
ghost use Rattle.processor.specs.Kept.{FramesLeft, OnPlace};

use crate::floor::Floor;
use crate::parts::consumes_id;
use rows::context::Context;
use search::place::find;
use verdicts::answer::Verdict;

// The part of a frame where a trade report has its symbol, as far as the frame goes.
fn symbol_part(frame: &[u8]) -> &[u8]
    ensures { result.now ≡ part 37 48 frame.now }
{
    if frame.len() < 37 {
        return &frame[0..0];
    }
    if frame.len() < 48 {
        return &frame[37..];
    }
    &frame[37..48]
}

impl<'a> Floor<'a> {
    // A frame that fails a row is passed over, rejected, or cuts the line.
    pub(crate) fn fail(&mut self, line: usize, place: Option<usize>, verdict: Verdict)
        requires listed { OnPlace (day_of self.old) line place }
        requires frames_left { FramesLeft (day_of self.old) line }
        ensures { day_of self.new ≡ (turned (day_of self.old) line (quiet (answered (failed verdict)) (after_verdict (line_of line (day_of self.old)) place verdict))).day }
    {
        match verdict {
            Verdict::PassedOver => {}
            Verdict::Cut(reason) => self.cut(line, reason),
            Verdict::Rejected(reason) => match place {
                Some(security) => {
                    if consumes_id(reason.row) {
                        self.consume_both(line, security);
                    } else {
                        self.consume_frame(line);
                    }
                }
                None => self.consume_frame(line),
            },
        }
    }

    // Where the security that a frame names as a trade report does stands in the list.
    pub(crate) fn frame_place(&self, frame: &[u8]) -> Option<usize>
        ensures value { result ≡ frame_place (day_of self.now).market frame.now }
        ensures within { IfSome result (λ s. s < security_count (day_of self.now).market) }
    {
        find(&self.market, symbol_part(frame))
    }

    // What the rows look at besides the frame and the code book.
    pub(crate) fn context(&self, line: usize, time: u64, place: Option<usize>) -> Context
        requires { OnPlace (day_of self.now) line place }
        ensures { result ≡ context_of (day_of self.now).market line (line_of line (day_of self.now)) time place }
    {
        let status = self.status(line);
        Context {
            originator: self.originator(line),
            expected_sequence: status.expected_sequence,
            security: place,
            expected_trade_id: self.expected_id(line, place),
            phase: self.phase,
            start: self.start,
            sip_time: time,
        }
    }

    fn originator(&self, line: usize) -> [u8; 2]
        requires { line < line_count (day_of self.now).market }
        ensures { result ≡ slice_index_or (day_of self.now).market.originators line [] }
    {
        match self.market.originator(line) {
            Some(originator) => originator,
            None => unreachable!(),
        }
    }

    fn expected_id(&self, line: usize, place: Option<usize>) -> u32
        requires { OnPlace (day_of self.now) line place }
        ensures { result ≡ expected_id (line_of line (day_of self.now)).records place }
    {
        match place {
            Some(security) => self.record(line, security).next_trade_id,
            None => 0,
        }
    }
}
