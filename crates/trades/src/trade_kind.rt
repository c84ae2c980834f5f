// The trade report as a kind of frame: TE, 72 bytes, fifteen rows.
ghost use Rattle.std.specs.Prelude.{codes};
ghost use Rattle.wire.specs.TradeReport.{fields_of};
ghost use Rattle.trades.specs.TradeRows.{trade_asked, trade_order};
ghost use Rattle.std.proofs.Common.{rules};

use crate::condition_rows::{do_days_fit, is_each_in_own_bucket, is_each_in_some_bucket};
use crate::frame_parts::TradeFrame;
use books::code_book::CodeBook;
use rows::asked::{cut_unless, reject_unless};
use rows::context::Context;
use rows::kind::Kind;
use text::printable::{all_printable, is_printable};
use verdicts::answer::Verdict;
use verdicts::code::Code;
use verdicts::row::{Row, TradeRow};
use wire::trade_report::TradeReport;

// From top to bottom. Names and a `match` on them, since the answer to a frame names its row.
const ROWS: &[TradeRow] = &[
    TradeRow::SymbolPrintable,
    TradeRow::SymbolListed,
    TradeRow::IdNotAbove,
    TradeRow::IdNotBelow,
    TradeRow::FlagPrintable,
    TradeRow::FlagAccepted,
    TradeRow::ConditionPrintable,
    TradeRow::ValuesAccepted,
    TradeRow::BucketsAccepted,
    TradeRow::FlagWithCondition,
    TradeRow::SellerDays,
    TradeRow::SidePrintable,
    TradeRow::SideAccepted,
    TradeRow::VolumeNotZero,
    TradeRow::DayOpen,
];

pub struct Trade;

impl Kind for Trade {
    const LETTERS: [u8; 2] = *b"TE";

    const LENGTH: usize = 72;

    type Fields = TradeReport;

    type Row = TradeRow;

    ghost LETTERS = { codes "TE" };

    ghost LENGTH = { 72 };

    ghost fields = { fields_of };

    ghost order = { trade_order };

    ghost asked = { trade_asked };

    ghost headed = { Prim.search rules };

    fn read(frame: &[u8]) -> TradeReport {
        match TradeReport::read(frame) {
            Ok(report) => report,
            Err(_) => unreachable!(),
        }
    }

    fn rows() -> &'static [TradeRow] {
        ROWS
    }

    fn ask<B: CodeBook>(
        row: TradeRow,
        frame: &[u8],
        context: &Context,
        book: &B,
    ) -> Result<(), Verdict> {
        let frame = TradeFrame::new(frame);
        let named = Row::Trade(row);
        match row {
            TradeRow::SymbolPrintable => cut_unless(
                all_printable(frame.symbol()),
                Code::SecurityIdentifier,
                named,
            ),
            TradeRow::SymbolListed => reject_unless(
                context.security.is_some(),
                Code::SecurityIdentifier,
                named,
            ),
            TradeRow::IdNotAbove => reject_unless(
                frame.trade_id() <= context.expected_trade_id,
                Code::TradeId,
                named,
            ),
            TradeRow::IdNotBelow => reject_unless(
                frame.trade_id() >= context.expected_trade_id,
                Code::TradeId,
                named,
            ),
            TradeRow::FlagPrintable => cut_unless(
                is_printable(frame.exempt_flag()),
                Code::ExemptFlag,
                named,
            ),
            TradeRow::FlagAccepted => reject_unless(
                book.accepts_flag(frame.exempt_flag()),
                Code::ExemptFlag,
                named,
            ),
            TradeRow::ConditionPrintable => cut_unless(
                all_printable(frame.condition()),
                Code::SaleCondition,
                named,
            ),
            TradeRow::ValuesAccepted => reject_unless(
                is_each_in_some_bucket(book, frame.condition()),
                Code::SaleCondition,
                named,
            ),
            TradeRow::BucketsAccepted => reject_unless(
                is_each_in_own_bucket(book, frame.condition()),
                Code::SaleCondition,
                named,
            ),
            TradeRow::FlagWithCondition => reject_unless(
                book.go_together(frame.exempt_flag(), frame.condition()),
                Code::SaleCondition,
                named,
            ),
            TradeRow::SellerDays => reject_unless(
                do_days_fit(frame.condition(), frame.seller_days()),
                Code::SellerDays,
                named,
            ),
            TradeRow::SidePrintable => cut_unless(is_printable(frame.side()), Code::Side, named),
            TradeRow::SideAccepted => reject_unless(
                book.accepts_side(frame.side()),
                Code::Side,
                named,
            ),
            TradeRow::VolumeNotZero => reject_unless(frame.volume() != 0, Code::TradeVolume, named),
            TradeRow::DayOpen => reject_unless(context.phase.is_open(), Code::NotOpen, named),
        }
    }
}
