// Whether a call is refused, and by what: the first refusal that applies.
ghost use Rattle.std.specs.Prelude.{◌≡◌};
ghost use Rattle.day.specs.Call.{close_day, hang_up, log_in, open_day};
ghost use Rattle.processor.specs.Held.{day_of};
ghost use Rattle.processor.specs.Bars.{allowed, inquire_bar, line_bar, operator_bar, post_bar, send_bar};

use crate::floor::Floor;
use rows::context::Phase;
use search::place::find;
use states::refusal::Refusal;
use states::security_status::{PostedAction, next_state};

const FRAME_LIMIT: u32 = 1_000_000;

const ACTION_LIMIT: u32 = 1_000_000;

// What a send and an inquiry ask of their buffers before anything is written, as the definition of a day has it. The crates that
// write ask the same of any caller.
const TAPE_ROOM: usize = 128;

const INQUIRY_ROOM: usize = 33;

impl<'a> Floor<'a> {
    pub(crate) fn check_log_in(&self, line: usize) -> Result<(), Refusal>
        ensures { result ≡ allowed (line_bar (day_of self.now) line log_in) }
    {
        if line >= self.market.line_count() {
            return Err(Refusal::NoSuchLine);
        }
        if self.status(line).logged_in {
            return Err(Refusal::AlreadyLoggedIn);
        }
        Ok(())
    }

    pub(crate) fn check_hang_up(&self, line: usize) -> Result<(), Refusal>
        ensures { result ≡ allowed (line_bar (day_of self.now) line hang_up) }
    {
        if line >= self.market.line_count() || !self.status(line).logged_in {
            return Err(Refusal::NotLoggedIn);
        }
        Ok(())
    }

    pub(crate) fn check_send(&self, line: usize, room: usize) -> Result<(), Refusal>
        ensures { result ≡ allowed (send_bar (day_of self.now) line room) }
    {
        self.check_hang_up(line)?;
        let status = self.status(line);
        if status.cut.is_some() {
            return Err(Refusal::LineCut);
        }
        if status.consumed >= FRAME_LIMIT {
            return Err(Refusal::FramesSpent);
        }
        if room < TAPE_ROOM {
            return Err(Refusal::ShortBuffer);
        }
        Ok(())
    }

    pub(crate) fn check_inquire(
        &self,
        line: usize,
        symbol: &[u8],
        room: usize,
    ) -> Result<(), Refusal>
        ensures { result ≡ allowed (inquire_bar (day_of self.now) line symbol.now room) }
    {
        self.check_hang_up(line)?;
        if self.status(line).cut.is_some() {
            return Err(Refusal::LineCut);
        }
        if room < INQUIRY_ROOM {
            return Err(Refusal::ShortBuffer);
        }
        if find(&self.market, symbol).is_none() {
            return Err(Refusal::NotListed);
        }
        Ok(())
    }

    // Whether the day stands where opening or closing it begins.
    pub(crate) fn check_phase(&self, needed: Phase) -> Result<(), Refusal>
        ensures opening { needed ≡ Phase.Fresh → result ≡ allowed (operator_bar (day_of self.now) open_day) }
        ensures closing { needed ≡ Phase.Open → result ≡ allowed (operator_bar (day_of self.now) close_day) }
    {
        if self.phase != needed {
            return Err(Refusal::WrongPhase);
        }
        Ok(())
    }

    pub(crate) fn check_post(&self, symbol: &[u8], action: PostedAction) -> Result<(), Refusal>
        ensures { result ≡ allowed (post_bar (day_of self.now) symbol.now action) }
    {
        let Some(security) = find(&self.market, symbol) else {
            return Err(Refusal::NotListed);
        };
        let status = self.security(security);
        if next_state(status.state, action).is_none() {
            return Err(Refusal::NoTransition);
        }
        if status.posted >= ACTION_LIMIT {
            return Err(Refusal::ActionsSpent);
        }
        Ok(())
    }
}
