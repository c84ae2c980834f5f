// The calls of a day that take no frame.
ghost use Rattle.std.specs.Prelude.{◌≡◌, ◌<◌, ◌≤◌, length, None};
ghost use Rattle.books.specs.Sets.{Sets};
ghost use Rattle.day.specs.Call.{close_day, hang_up as hanging_up, inquire as inquiring, log_in as logging_in, of_line, of_operator, open_day, post as posting};
ghost use Rattle.day.specs.LineCalls.{inquired, inquiry_of, inquiry_room, place_or0};
ghost use Rattle.day.specs.Operator.{operated};
ghost use Rattle.day.specs.State.{line_count, line_of, security_count};
ghost use Rattle.day.specs.Step.{buffer_after, step};
ghost use Rattle.inquiry.specs.Inquiry.{inquiry_bytes};
ghost use Rattle.search.specs.Place.{place_of};
ghost use Rattle.processor.specs.Bars.{inquire_bar, post_bar};
ghost use Rattle.processor.specs.Held.{day_of, with_market};
ghost use Rattle.processor.specs.Kept.{Kept, OnSecurity};
ghost use Rattle.processor.specs.Replies.{done_reply, left_reply, logged_reply, told_reply};

use crate::floor::Floor;
use inquiry::inquiry::Inquiry;
use rows::context::Phase;
use search::place::find;
use states::refusal::Refusal;
use states::security_status::{PostedAction, SecurityStatus, next_state};
use text::symbol::Symbol;
use verdicts::answer::Reason;

impl<'a> Floor<'a> {
    pub(crate) fn log_in(&mut self, line: usize) -> Result<(), Refusal>
        requires { Kept (day_of self.old) }
        ensures said { (sets : Sets) → logged_reply line result ≡ (step sets (day_of self.old) (of_line line logging_in)).said }
        ensures leaves { (sets : Sets) → day_of self.new ≡ (step sets (day_of self.old) (of_line line logging_in)).day }
    {
        self.check_log_in(line)?;
        self.seat(line, true);
        Ok(())
    }

    // Answers why the line was cut, if it was.
    pub(crate) fn hang_up(&mut self, line: usize) -> Result<Option<Reason>, Refusal>
        requires { Kept (day_of self.old) }
        ensures said { (sets : Sets) → left_reply result ≡ (step sets (day_of self.old) (of_line line hanging_up)).said }
        ensures leaves { (sets : Sets) → day_of self.new ≡ (step sets (day_of self.old) (of_line line hanging_up)).day }
    {
        self.check_hang_up(line)?;
        let cut = self.status(line).cut;
        self.seat(line, false);
        Ok(cut)
    }

    // Opening and closing differ in two phases, and each is the definition of its own call.
    pub(crate) fn open(&mut self) -> Result<(), Refusal>
        ensures said { (sets : Sets) → done_reply result ≡ (step sets (day_of self.old) (of_operator open_day)).said }
        ensures leaves { (sets : Sets) → day_of self.new ≡ (step sets (day_of self.old) (of_operator open_day)).day }
    {
        self.check_phase(Phase::Fresh)?;
        self.set_phase(Phase::Open);
        Ok(())
    }

    pub(crate) fn close(&mut self) -> Result<(), Refusal>
        ensures said { (sets : Sets) → done_reply result ≡ (step sets (day_of self.old) (of_operator close_day)).said }
        ensures leaves { (sets : Sets) → day_of self.new ≡ (step sets (day_of self.old) (of_operator close_day)).day }
    {
        self.check_phase(Phase::Open)?;
        self.set_phase(Phase::Closed);
        Ok(())
    }

    pub(crate) fn post(&mut self, symbol: &[u8], action: PostedAction) -> Result<(), Refusal>
        requires { Kept (day_of self.old) }
        ensures said { (sets : Sets) → done_reply result ≡ (step sets (day_of self.old) (of_operator (posting symbol.now action))).said }
        ensures leaves { (sets : Sets) → day_of self.new ≡ (step sets (day_of self.old) (of_operator (posting symbol.now action))).day }
    {
        self.check_post(symbol, action)?;
        self.post_open(symbol, action);
        Ok(())
    }

    // A post that is not refused: the security is listed, the action leads, and there is one left. Security and state are looked up
    // again, so that the check says the definition's refusal and no more.
    fn post_open(&mut self, symbol: &[u8], action: PostedAction)
        requires { (Kept (day_of self.old)) × (post_bar (day_of self.old) symbol.now action ≡ None) }
        ensures { day_of self.new ≡ with_market (day_of self.old) (operated (day_of self.old).market (posting symbol.now action)) }
    {
        if let Some(security) = find(&self.market, symbol) {
            let status = self.security(security);
            if let Some(state) = next_state(status.state, action) {
                self.set_security(
                    security,
                    SecurityStatus {
                        state,
                        posted: status.posted + 1,
                    },
                );
            }
        }
    }

    // Writes what a line is told of a security.
    pub(crate) fn inquire(
        &self,
        line: usize,
        time: u64,
        symbol: &Symbol,
        buffer: &mut [u8],
    ) -> Result<(), Refusal>
        requires { Kept (day_of self.now) }
        ensures said { (sets : Sets) → told_reply result ≡ (step sets (day_of self.now) (of_line line (inquiring time symbol.now (length buffer.old)))).said }
        ensures wrote { (sets : Sets) → buffer.new ≡ buffer_after (step sets (day_of self.now) (of_line line (inquiring time symbol.now (length buffer.old)))).wrote buffer.old }
        ensures same { (sets : Sets) → day_of self.now ≡ (step sets (day_of self.now) (of_line line (inquiring time symbol.now (length buffer.old)))).day }
    {
        self.check_inquire(line, symbol, buffer.len())?;
        self.inquire_open(line, time, symbol, buffer);
        Ok(())
    }

    // An inquiry that is not refused. The security is looked up again, as in a post.
    fn inquire_open(&self, line: usize, time: u64, symbol: &Symbol, buffer: &mut [u8])
        requires { (Kept (day_of self.now)) × (inquire_bar (day_of self.now) line symbol.now (length buffer.old) ≡ None) }
        ensures { buffer.new ≡ buffer_after (inquired (day_of self.now).market (line_of line (day_of self.now)) time symbol.now (place_or0 (place_of (day_of self.now).market.symbols symbol.now))) buffer.old }
    {
        if let Some(security) = find(&self.market, symbol) {
            put_inquiry(&self.inquiry_of(line, time, symbol, security), buffer);
        }
    }

    fn inquiry_of(&self, line: usize, time: u64, symbol: &Symbol, security: usize) -> Inquiry
        requires { OnSecurity (day_of self.now) line security }
        ensures { result ≡ inquiry_of (day_of self.now).market (line_of line (day_of self.now)) time symbol.now security }
    {
        let status = self.security(security);
        Inquiry {
            sip_time: time,
            symbol: *symbol,
            next_trade_id: self.record(line, security).next_trade_id,
            action_number: status.posted + 1,
            state: status.state,
        }
    }
}

fn put_inquiry(inquiry: &Inquiry, buffer: &mut [u8])
    requires { inquiry_room ≤ length buffer.old }
    ensures { buffer.new ≡ buffer_after (inquiry_bytes inquiry.now) buffer.old }
{
    let _ = inquiry.write(buffer);
}
