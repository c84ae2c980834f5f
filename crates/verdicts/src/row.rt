// The rows of the tables that a frame is judged by, each named for what has to hold.
ghost use Rattle.std.specs.Prelude.{◌≡◌};
ghost use Rattle.verdicts.specs.Row.{mass_action_number, row_number, trade_number};

use wire::header::HeaderRow;

// The rows of a trade report.
#[derive(Clone, Copy, PartialEq, Eq, Debug)]
pub enum TradeRow {
    SymbolPrintable,
    SymbolListed,
    IdNotAbove,
    IdNotBelow,
    FlagPrintable,
    FlagAccepted,
    ConditionPrintable,
    // each byte of the condition is a value of some bucket
    ValuesAccepted,
    // each byte of the condition is a value of its own bucket
    BucketsAccepted,
    FlagWithCondition,
    SellerDays,
    SidePrintable,
    SideAccepted,
    VolumeNotZero,
    DayOpen,
}

// The rows of a market center mass trading action.
#[derive(Clone, Copy, PartialEq, Eq, Debug)]
pub enum MassActionRow {
    FirstPrintable,
    LastPrintable,
    ActionPrintable,
    ActionAccepted,
    TimeInDay,
    DayOpen,
}

#[derive(Clone, Copy, PartialEq, Eq, Debug)]
pub enum Row {
    // what is asked of the frame alone
    Header(HeaderRow),
    // the originator is the line's
    Originator,
    // the feed sequence is not above the expected one
    FeedSequence,
    Trade(TradeRow),
    MassAction(MassActionRow),
}

// A row's number in its own table.
impl From<TradeRow> for u16 {
    ghost from_gives = { λ row number. number ≡ trade_number row };

    fn from(row: TradeRow) -> u16 {
        match row {
            TradeRow::SymbolPrintable => 1,
            TradeRow::SymbolListed => 2,
            TradeRow::IdNotAbove => 3,
            TradeRow::IdNotBelow => 4,
            TradeRow::FlagPrintable => 5,
            TradeRow::FlagAccepted => 6,
            TradeRow::ConditionPrintable => 7,
            TradeRow::ValuesAccepted => 8,
            TradeRow::BucketsAccepted => 9,
            TradeRow::FlagWithCondition => 10,
            TradeRow::SellerDays => 11,
            TradeRow::SidePrintable => 12,
            TradeRow::SideAccepted => 13,
            TradeRow::VolumeNotZero => 14,
            TradeRow::DayOpen => 15,
        }
    }
}

impl From<MassActionRow> for u16 {
    ghost from_gives = { λ row number. number ≡ mass_action_number row };

    fn from(row: MassActionRow) -> u16 {
        match row {
            MassActionRow::FirstPrintable => 1,
            MassActionRow::LastPrintable => 2,
            MassActionRow::ActionPrintable => 3,
            MassActionRow::ActionAccepted => 4,
            MassActionRow::TimeInDay => 5,
            MassActionRow::DayOpen => 6,
        }
    }
}

// A row's number: those of a kind from 1, those of the header from 101.
impl From<Row> for u16 {
    ghost from_gives = { λ row number. number ≡ row_number row };

    fn from(row: Row) -> u16 {
        match row {
            Row::Header(row) => u16::from(row),
            Row::Originator => 104,
            Row::FeedSequence => 105,
            Row::Trade(row) => u16::from(row),
            Row::MassAction(row) => u16::from(row),
        }
    }
}
