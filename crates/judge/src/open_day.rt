// An open day on which every frame comes as the next one of the first line.
ghost use Rattle.std.specs.Prelude.{◌≡◌, Some};
ghost use Rattle.lists.specs.Listed.{lines_of};
ghost use Rattle.lists.specs.Market.{at_index};

use books::code_book::CodeBook;
use lines::judge::judge;
use lists::market_list::MarketList;
use rows::context::{Context, Phase};
use search::place::find;
use verdicts::answer::Answer;
use wire::mass_action::MassAction;
use wire::trade_report::TradeReport;

#[derive(Drop)]
pub(crate) struct OpenDay<'a, B> {
    pub(crate) market: &'a MarketList,
    // in nanoseconds
    pub(crate) start: u64,
    pub(crate) book: &'a B,
}

// The originator of the first line: every list has one.
fn first_originator(market: &MarketList) -> [u8; 2]
    ensures { Some result ≡ at_index (lines_of market.now) 0 }
{
    market.originators()[0]
}

impl<'a, B: CodeBook> OpenDay<'a, B> {
    // What the processor knows when a frame comes. No recording says when that is, so no action time is too late.
    fn context_of(&self, frame: &[u8]) -> Context {
        let mut context = Context {
            originator: first_originator(self.market),
            expected_sequence: 0,
            security: None,
            expected_trade_id: 0,
            phase: Phase::Open,
            start: self.start,
            sip_time: u64::MAX,
        };
        if let Ok(report) = TradeReport::read(frame) {
            context.expected_sequence = report.feed_sequence;
            context.security = find(self.market, &report.symbol);
            context.expected_trade_id = report.trade_id;
        }
        if let Ok(action) = MassAction::read(frame) {
            context.expected_sequence = action.feed_sequence;
        }
        context
    }

    pub(crate) fn answer_to(&self, frame: &[u8]) -> Answer {
        match judge(frame, &self.context_of(frame), self.book) {
            Ok(_) => Answer::Taken(0),
            Err(verdict) => Answer::from(verdict),
        }
    }
}
