// The calls of a practice day.
ghost use Rattle.std.specs.Prelude.{◌≡◌, length, Ok};
ghost use Rattle.books.specs.Sets.{Sets};
ghost use Rattle.day.specs.Asks.{center_sheet, consolidated_sheet};
ghost use Rattle.day.specs.Call.{close_day, hang_up as hanging_up, inquire as inquiring, log_in as logging_in, of_line, of_operator, open_day, post as posting, send as sending};
ghost use Rattle.day.specs.State.{fresh_day};
ghost use Rattle.day.specs.Step.{buffer_after, step};
ghost use Rattle.processor.specs.Held.{day_of};
ghost use Rattle.lists.specs.Listed.{lines_of, securities_of};
ghost use Rattle.processor.specs.Making.{making};
ghost use Rattle.processor.specs.Replies.{done_reply, HandedBack, hung_reply, sent_reply, ticket_reply, told_reply};

use crate::floor::Floor;
use crate::practice_day::Day;
use crate::ticket::Ticket;
use books::code_book::CodeBook;
use lists::market_list::MarketList;
use states::refusal::Refusal;
use states::security_status::PostedAction;
use stats::plain_sheet::PlainSheet;
use stats::record::MarketCenterRecord;
use stats::sale::LastSale;
use text::symbol::Symbol;
use verdicts::answer::{Answer, Reason};

impl<'a> Day<'a> {
    // Takes the list along, and the records for the day's life. Whether there are enough of them was just checked, so that nothing
    // is left to refuse.
    pub(crate) fn make(
        market: MarketList,
        start: u64,
        records: &'a mut [MarketCenterRecord],
    ) -> Day<'a>
        requires { making (securities_of market) (lines_of market) records.old ≡ Ok tt }
        ensures { day_of result.floor ≡ fresh_day (securities_of market) (lines_of market) start records.old }
    {
        Day {
            floor: Floor::fresh(market, start, records),
        }
    }

    pub(crate) fn log_in(&mut self, line: usize) -> Result<Ticket, Refusal>
        ensures said { (sets : Sets) → ticket_reply result ≡ (step sets (day_of self.old.floor) (of_line line logging_in)).said }
        ensures leaves { (sets : Sets) → day_of self.new.floor ≡ (step sets (day_of self.old.floor) (of_line line logging_in)).day }
    {
        self.floor.log_in(line)?;
        Ok(Ticket { line })
    }

    pub(crate) fn send<B: CodeBook>(
        &mut self,
        ticket: &Ticket,
        book: &B,
        time: u64,
        frame: &[u8],
        buffer: &mut [u8],
    ) -> Result<Answer, Refusal>
        ensures said { sent_reply result ≡ (step (B.CodeBook.sets book.now) (day_of self.old.floor) (of_line ticket.now.line (sending time frame.now (length buffer.old)))).said }
        ensures leaves { day_of self.new.floor ≡ (step (B.CodeBook.sets book.now) (day_of self.old.floor) (of_line ticket.now.line (sending time frame.now (length buffer.old)))).day }
        ensures wrote { buffer.new ≡ buffer_after (step (B.CodeBook.sets book.now) (day_of self.old.floor) (of_line ticket.now.line (sending time frame.now (length buffer.old)))).wrote buffer.old }
    {
        self.floor.send(ticket.line, book, time, frame, buffer)
    }

    pub(crate) fn open(&mut self) -> Result<(), Refusal>
        ensures said { (sets : Sets) → done_reply result ≡ (step sets (day_of self.old.floor) (of_operator open_day)).said }
        ensures leaves { (sets : Sets) → day_of self.new.floor ≡ (step sets (day_of self.old.floor) (of_operator open_day)).day }
    {
        self.floor.open()
    }

    pub(crate) fn close(&mut self) -> Result<(), Refusal>
        ensures said { (sets : Sets) → done_reply result ≡ (step sets (day_of self.old.floor) (of_operator close_day)).said }
        ensures leaves { (sets : Sets) → day_of self.new.floor ≡ (step sets (day_of self.old.floor) (of_operator close_day)).day }
    {
        self.floor.close()
    }

    pub(crate) fn post(&mut self, symbol: &Symbol, action: PostedAction) -> Result<(), Refusal>
        ensures said { (sets : Sets) → done_reply result ≡ (step sets (day_of self.old.floor) (of_operator (posting symbol.now action))).said }
        ensures leaves { (sets : Sets) → day_of self.new.floor ≡ (step sets (day_of self.old.floor) (of_operator (posting symbol.now action))).day }
    {
        self.floor.post(symbol, action)
    }

    pub(crate) fn inquire(
        &self,
        ticket: &Ticket,
        time: u64,
        symbol: &Symbol,
        buffer: &mut [u8],
    ) -> Result<(), Refusal>
        ensures said { (sets : Sets) → told_reply result ≡ (step sets (day_of self.now.floor) (of_line ticket.now.line (inquiring time symbol.now (length buffer.old)))).said }
        ensures wrote { (sets : Sets) → buffer.new ≡ buffer_after (step sets (day_of self.now.floor) (of_line ticket.now.line (inquiring time symbol.now (length buffer.old)))).wrote buffer.old }
        ensures same { (sets : Sets) → day_of self.now.floor ≡ (step sets (day_of self.now.floor) (of_line ticket.now.line (inquiring time symbol.now (length buffer.old)))).day }
    {
        self.floor.inquire(ticket.line, time, symbol, buffer)
    }

    // Takes the ticket, and answers why the line was cut, if it was; refused, it hands the ticket back.
    pub(crate) fn hang_up(&mut self, ticket: Ticket) -> Result<Option<Reason>, (Refusal, Ticket)>
        ensures said { (sets : Sets) → hung_reply result ≡ (step sets (day_of self.old.floor) (of_line ticket.line hanging_up)).said }
        ensures leaves { (sets : Sets) → day_of self.new.floor ≡ (step sets (day_of self.old.floor) (of_line ticket.line hanging_up)).day }
        ensures back { HandedBack ticket result }
    {
        match self.floor.hang_up(ticket.line) {
            Ok(cut) => {
                let Ticket { line: _ } = ticket;
                Ok(cut)
            }
            Err(refusal) => Err((refusal, ticket)),
        }
    }

    // Asking alters nothing.
    pub(crate) fn center_sheet(
        &self,
        line: usize,
        symbol: &Symbol,
    ) -> Result<PlainSheet<u64>, Refusal>
        ensures { result ≡ center_sheet (day_of self.now.floor) line symbol.now }
    {
        self.floor.center_sheet(line, symbol)
    }

    pub(crate) fn consolidated_sheet(
        &self,
        symbol: &Symbol,
    ) -> Result<PlainSheet<LastSale>, Refusal>
        ensures { result ≡ consolidated_sheet (day_of self.now.floor) symbol.now }
    {
        self.floor.consolidated_sheet(symbol)
    }
}
