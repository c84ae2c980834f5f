// Sending a frame.
ghost use Rattle.std.specs.Prelude.{◌≡◌, ◌<◌, ◌≤◌, length, IfSome, Ok};
ghost use Rattle.day.specs.Call.{answered, of_line, send as sending};
ghost use Rattle.day.specs.LineCalls.{frame_limit, tape_room};
ghost use Rattle.day.specs.State.{line_count, line_of, security_count};
ghost use Rattle.day.specs.Step.{buffer_after, step, turned};
ghost use Rattle.processor.specs.Held.{day_of};
ghost use Rattle.processor.specs.Kept.{FramesLeft, Kept, OnLine, OnPlace};
ghost use Rattle.processor.specs.Replies.{sent_reply};
ghost use Rattle.processor.specs.Turns.{frame_turn, judged_turn};

use crate::floor::Floor;
use books::code_book::CodeBook;
use lines::judge::{Message, judge};
use states::refusal::Refusal;
use verdicts::answer::{Answer, Verdict};

impl<'a> Floor<'a> {
    // Does what a frame that no row refuses says. Line, time and buffer stay arguments: of a struct of them each step would use another
    // part, and the buffer is lent on.
    fn obey(
        &mut self,
        line: usize,
        time: u64,
        place: Option<usize>,
        message: Message,
        buffer: &mut [u8],
    ) -> Answer
        requires listed { OnPlace (day_of self.old) line place }
        requires frames_left { FramesLeft (day_of self.old) line }
        requires room { tape_room ≤ length buffer.old }
        ensures said { answered result ≡ (judged_turn (day_of self.old) line time place (Ok message)).said }
        ensures leaves { day_of self.new ≡ (turned (day_of self.old) line (judged_turn (day_of self.old) line time place (Ok message))).day }
        ensures wrote { buffer.new ≡ buffer_after (turned (day_of self.old) line (judged_turn (day_of self.old) line time place (Ok message))).wrote buffer.old }
    {
        match message {
            Message::Trade(report) => {
                if let Some(security) = place {
                    self.take(line, security, time, &report, buffer);
                }
                Answer::Taken(0)
            }
            Message::Mass(action) => Answer::Taken(self.mark(line, &action)),
        }
    }

    // Does what the judgement of a frame says.
    fn settle(
        &mut self,
        line: usize,
        time: u64,
        place: Option<usize>,
        judgement: Result<Message, Verdict>,
        buffer: &mut [u8],
    ) -> Answer
        requires listed { OnPlace (day_of self.old) line place }
        requires frames_left { FramesLeft (day_of self.old) line }
        requires room { tape_room ≤ length buffer.old }
        ensures said { answered result ≡ (judged_turn (day_of self.old) line time place judgement).said }
        ensures leaves { day_of self.new ≡ (turned (day_of self.old) line (judged_turn (day_of self.old) line time place judgement)).day }
        ensures wrote { buffer.new ≡ buffer_after (turned (day_of self.old) line (judged_turn (day_of self.old) line time place judgement)).wrote buffer.old }
    {
        match judgement {
            Err(verdict) => {
                self.fail(line, place, verdict);
                Answer::from(verdict)
            }
            Ok(message) => self.obey(line, time, place, message, buffer),
        }
    }

    // A send that is not refused.
    fn send_open<B: CodeBook>(
        &mut self,
        line: usize,
        book: &B,
        time: u64,
        frame: &[u8],
        buffer: &mut [u8],
    ) -> Answer
        requires listed { OnLine (day_of self.old) line }
        requires frames_left { FramesLeft (day_of self.old) line }
        requires room { tape_room ≤ length buffer.old }
        ensures said { answered result ≡ (frame_turn (B.CodeBook.sets book.now) (day_of self.old) line time frame.now).said }
        ensures leaves { day_of self.new ≡ (turned (day_of self.old) line (frame_turn (B.CodeBook.sets book.now) (day_of self.old) line time frame.now)).day }
        ensures wrote { buffer.new ≡ buffer_after (turned (day_of self.old) line (frame_turn (B.CodeBook.sets book.now) (day_of self.old) line time frame.now)).wrote buffer.old }
    {
        let place = self.frame_place(frame);
        let context = self.context(line, time, place);
        self.settle(line, time, place, judge(frame, &context, book), buffer)
    }

    pub(crate) fn send<B: CodeBook>(
        &mut self,
        line: usize,
        book: &B,
        time: u64,
        frame: &[u8],
        buffer: &mut [u8],
    ) -> Result<Answer, Refusal>
        requires { Kept (day_of self.old) }
        ensures said { sent_reply result ≡ (step (B.CodeBook.sets book.now) (day_of self.old) (of_line line (sending time frame.now (length buffer.old)))).said }
        ensures leaves { day_of self.new ≡ (step (B.CodeBook.sets book.now) (day_of self.old) (of_line line (sending time frame.now (length buffer.old)))).day }
        ensures wrote { buffer.new ≡ buffer_after (step (B.CodeBook.sets book.now) (day_of self.old) (of_line line (sending time frame.now (length buffer.old)))).wrote buffer.old }
    {
        self.check_send(line, buffer.len())?;
        Ok(self.send_open(line, book, time, frame, buffer))
    }
}
