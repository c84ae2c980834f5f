// The market center mass trading action as a kind of frame: AU, 60 bytes, six rows.
ghost use Rattle.std.specs.Prelude.{◌≡◌, codes};
ghost use Rattle.actions.specs.ActionRows.{action_asked, action_order, in_day};
ghost use Rattle.wire.specs.MassAction.{action_fields};
ghost use Rattle.std.proofs.Common.{rules};

use crate::frame_parts::MassFrame;
use books::code_book::CodeBook;
use marks::trading_action::TradingAction;
use rows::asked::{cut_unless, reject_unless};
use rows::context::Context;
use rows::kind::Kind;
use text::printable::{all_printable, is_printable};
use verdicts::answer::Verdict;
use verdicts::code::Code;
use verdicts::row::{MassActionRow, Row};
use wire::mass_action::MassAction;

// From top to bottom. Names and a `match` on them, since the answer to a frame names its row.
const ROWS: &[MassActionRow] = &[
    MassActionRow::FirstPrintable,
    MassActionRow::LastPrintable,
    MassActionRow::ActionPrintable,
    MassActionRow::ActionAccepted,
    MassActionRow::TimeInDay,
    MassActionRow::DayOpen,
];

pub struct Mass;

// Whether a time lies from the day's start to the processor's time, both included.
fn is_in_day(time: u64, context: &Context) -> bool
    ensures { result ≡ in_day time context.now }
{
    (context.start..=context.sip_time).contains(&time)
}

impl Kind for Mass {
    const LETTERS: [u8; 2] = *b"AU";

    const LENGTH: usize = 60;

    type Fields = MassAction;

    type Row = MassActionRow;

    ghost LETTERS = { codes "AU" };

    ghost LENGTH = { 60 };

    ghost fields = { action_fields };

    ghost order = { action_order };

    ghost asked = { action_asked };

    ghost headed = { Prim.search rules };

    fn read(frame: &[u8]) -> MassAction {
        match MassAction::read(frame) {
            Ok(action) => action,
            Err(_) => unreachable!(),
        }
    }

    fn rows() -> &'static [MassActionRow] {
        ROWS
    }

    fn ask<B: CodeBook>(
        row: MassActionRow,
        frame: &[u8],
        context: &Context,
        _book: &B,
    ) -> Result<(), Verdict> {
        let frame = MassFrame::new(frame);
        let named = Row::MassAction(row);
        match row {
            MassActionRow::FirstPrintable => cut_unless(
                all_printable(frame.first()),
                Code::SecurityIdentifier,
                named,
            ),
            MassActionRow::LastPrintable => cut_unless(
                all_printable(frame.last()),
                Code::SecurityIdentifier,
                named,
            ),
            MassActionRow::ActionPrintable => cut_unless(
                is_printable(frame.action()),
                Code::TradingAction,
                named,
            ),
            MassActionRow::ActionAccepted => reject_unless(
                TradingAction::try_from(frame.action()).is_ok(),
                Code::TradingAction,
                named,
            ),
            MassActionRow::TimeInDay => reject_unless(
                is_in_day(frame.action_time(), context),
                Code::ActionTime,
                named,
            ),
            MassActionRow::DayOpen => reject_unless(context.phase.is_open(), Code::NotOpen, named),
        }
    }
}
