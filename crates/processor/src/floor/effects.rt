// What a call that is not refused makes of a day.
ghost use Rattle.std.specs.Prelude.{◌≡◌, ◌<◌};
ghost use Rattle.day.specs.Call.{ticket};
ghost use Rattle.day.specs.LineCalls.{frame_consumed, frame_limit, id_consumed, quiet, record_at, seated};
ghost use Rattle.day.specs.State.{line_count, line_of, security_count};
ghost use Rattle.day.specs.Step.{turned};
ghost use Rattle.processor.specs.Held.{cut_status, day_of, with_record, with_status};
ghost use Rattle.processor.specs.Kept.{FramesLeft, OnLine, OnSecurity};

use crate::floor::Floor;
use crate::parts::{frame_consumed, id_consumed};
use states::line_status::LineStatus;
use verdicts::answer::Reason;

impl<'a> Floor<'a> {
    // The line logs in or hangs up, as the definition has it in one; a cut ends with either.
    pub(crate) fn seat(&mut self, line: usize, inside: bool)
        requires { OnLine (day_of self.old) line }
        ensures { day_of self.new ≡ (turned (day_of self.old) line (quiet (ticket line) (seated inside (line_of line (day_of self.old))))).day }
    {
        let status = self.status(line);
        self.set_status(
            line,
            LineStatus {
                logged_in: inside,
                cut: None,
                ..status
            },
        );
    }

    pub(crate) fn cut(&mut self, line: usize, reason: Reason)
        requires { OnLine (day_of self.old) line }
        ensures { day_of self.new ≡ with_status (day_of self.old) line (cut_status reason (line_of line (day_of self.old)).status) }
    {
        let status = self.status(line);
        self.set_status(
            line,
            LineStatus {
                cut: Some(reason),
                ..status
            },
        );
    }

    pub(crate) fn consume_frame(&mut self, line: usize)
        requires listed { OnLine (day_of self.old) line }
        requires frames_left { FramesLeft (day_of self.old) line }
        ensures { day_of self.new ≡ with_status (day_of self.old) line (frame_consumed (line_of line (day_of self.old)).status) }
    {
        let status = self.status(line);
        self.set_status(line, frame_consumed(status));
    }

    pub(crate) fn consume_id(&mut self, line: usize, security: usize)
        requires listed { OnSecurity (day_of self.old) line security }
        requires frames_left { FramesLeft (day_of self.old) line }
        ensures { day_of self.new ≡ with_record (day_of self.old) line security (id_consumed (record_at (line_of line (day_of self.old)).records security)) }
    {
        let center = self.record(line, security);
        self.set_record(line, security, id_consumed(center));
    }

    // A frame and its trade id.
    pub(crate) fn consume_both(&mut self, line: usize, security: usize)
        requires listed { OnSecurity (day_of self.old) line security }
        requires frames_left { FramesLeft (day_of self.old) line }
        ensures { day_of self.new ≡ with_status (with_record (day_of self.old) line security (id_consumed (record_at (line_of line (day_of self.old)).records security))) line (frame_consumed (line_of line (day_of self.old)).status) }
    {
        let status = frame_consumed(self.status(line));
        self.consume_id(line, security);
        self.set_status(line, status);
    }
}
