// What a mass trading action does to a day.
ghost use Rattle.std.specs.Prelude.{◌≡◌, ◌<◌};
ghost use Rattle.marks.specs.Actions.{action_of};
ghost use Rattle.marks.specs.Sweep.{swept, swept_count};
ghost use Rattle.day.specs.LineCalls.{counted_by, frame_limit, marked_by, mass_turn, range_of};
ghost use Rattle.day.specs.State.{line_count, line_of};
ghost use Rattle.day.specs.Step.{turned};
ghost use Rattle.processor.specs.Held.{day_of, with_records};
ghost use Rattle.processor.specs.Kept.{FramesLeft, OnLine};

use crate::floor::Floor;
use crate::parts::frame_consumed;
use marks::range::SymbolRange;
use marks::sweep::Sweep;
use marks::trading_action::TradingAction;
use wire::mass_action::MassAction;

impl<'a> Floor<'a> {
    // Marks the line's records, and counts those that the action was applied to.
    fn sweep_line(&mut self, line: usize, sweep: Sweep) -> usize
        requires { OnLine (day_of self.old) line }
        ensures count { result ≡ swept_count sweep.action sweep.range (day_of self.old).market.symbols (line_of line (day_of self.old)).records }
        ensures leaves { day_of self.new ≡ with_records (day_of self.old) line (swept sweep.action sweep.range (day_of self.old).market.symbols (line_of line (day_of self.old)).records) }
    {
        let from = line * self.market.security_count();
        match sweep.apply(&self.market, &mut self.records, from) {
            Some(count) => count,
            None => unreachable!(),
        }
    }

    // Takes a mass trading action that no row refuses.
    pub(crate) fn mark(&mut self, line: usize, action: &MassAction) -> usize
        requires listed { OnLine (day_of self.old) line }
        requires frames_left { FramesLeft (day_of self.old) line }
        ensures count { result ≡ counted_by (action_of action.now.action) (range_of action.now) (day_of self.old).market.symbols (line_of line (day_of self.old)).records }
        ensures leaves { day_of self.new ≡ (turned (day_of self.old) line (mass_turn (day_of self.old).market (line_of line (day_of self.old)) action.now)).day }
    {
        let status = frame_consumed(self.status(line));
        let range = SymbolRange {
            first: action.first,
            last: action.last,
        };
        let count = self.sweep_by(line, TradingAction::try_from(action.action).ok(), range);
        self.set_status(line, status);
        count
    }

    // Marks nothing where there is no action. The range stands apart, as in the definition: it is there without an action, too.
    fn sweep_by(&mut self, line: usize, action: Option<TradingAction>, range: SymbolRange) -> usize
        requires { OnLine (day_of self.old) line }
        ensures count { result ≡ counted_by action range (day_of self.old).market.symbols (line_of line (day_of self.old)).records }
        ensures leaves { day_of self.new ≡ with_records (day_of self.old) line (marked_by action range (day_of self.old).market.symbols (line_of line (day_of self.old)).records) }
    {
        match action {
            Some(action) => self.sweep_line(line, Sweep { action, range }),
            None => 0,
        }
    }
}
