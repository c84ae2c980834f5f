// The rule that a frame breaks where a row fails. Functions: the rows are of crates below, and types of this one round them would print
// these same words.
ghost use Rattle.std.specs.Prelude.{◌≡◌};
ghost use Rattle.words.specs.RuleWords.{header_words, mass_action_words, rule_words, trade_words};

use verdicts::row::{MassActionRow, Row, TradeRow};
use wire::header::HeaderRow;

fn header_rule(row: HeaderRow) -> &'static str
    ensures { result.now ≡ header_words row }
{
    match row {
        HeaderRow::Version =>
            "the frame has fewer than 3 bytes, or the version is not the character 1",
        HeaderRow::Kind => "the letters name no kind",
        HeaderRow::Length => "the length is not the kind's",
    }
}

fn trade_rule(row: TradeRow) -> &'static str
    ensures { result.now ≡ trade_words row }
{
    match row {
        TradeRow::SymbolPrintable => "a byte of the symbol is not printable",
        TradeRow::SymbolListed => "the symbol is not listed",
        TradeRow::IdNotAbove => "the trade id is above the expected one",
        TradeRow::IdNotBelow => "the trade id is below the expected one",
        TradeRow::FlagPrintable => "the exempt flag is not printable",
        TradeRow::FlagAccepted => "the exempt flag is not acceptable",
        TradeRow::ConditionPrintable => "a byte of the sale condition is not printable",
        TradeRow::ValuesAccepted => "a byte of the sale condition is acceptable in no bucket",
        TradeRow::BucketsAccepted => "a byte of the sale condition is not acceptable in its bucket",
        TradeRow::FlagWithCondition => "the exempt flag and the sale condition do not go together",
        TradeRow::SellerDays =>
            "the seller days are not 2 to 60 with an R in the sale condition, or not 0 without one",
        TradeRow::SidePrintable => "the side is not printable",
        TradeRow::SideAccepted => "the side is not acceptable",
        TradeRow::VolumeNotZero => "the volume is 0",
        TradeRow::DayOpen => "the day is not open",
    }
}

fn mass_action_rule(row: MassActionRow) -> &'static str
    ensures { result.now ≡ mass_action_words row }
{
    match row {
        MassActionRow::FirstPrintable => "a byte of the first symbol is not printable",
        MassActionRow::LastPrintable => "a byte of the last symbol is not printable",
        MassActionRow::ActionPrintable => "the action is not printable",
        MassActionRow::ActionAccepted => "the action is none of Q, W and E",
        MassActionRow::TimeInDay =>
            "the action time is before the day's start or after the SIP time",
        MassActionRow::DayOpen => "the day is not open",
    }
}

// What is wrong with the frame where a row fails.
pub fn rule_broken(row: Row) -> &'static str
    ensures { result.now ≡ rule_words row }
{
    match row {
        Row::Header(row) => header_rule(row),
        Row::Originator => "the originator is not the line's",
        Row::FeedSequence => "the feed sequence is above the expected one",
        Row::Trade(row) => trade_rule(row),
        Row::MassAction(row) => mass_action_rule(row),
    }
}
