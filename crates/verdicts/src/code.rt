// The codes that go with a reject or a cut.
ghost use Rattle.std.specs.Prelude.{◌≡◌};
ghost use Rattle.verdicts.specs.Code.{code_number};

// Named for what is wrong with the frame.
#[derive(Clone, Copy, PartialEq, Eq, Debug)]
pub enum Code {
    // the header, for which there is no code of its own
    Header,
    NotOpen,
    SecurityIdentifier,
    TradeVolume,
    SaleCondition,
    SellerDays,
    Side,
    ActionTime,
    ExemptFlag,
    TradingAction,
    TradeId,
}

// A code's number, as it is published.
impl From<Code> for u16 {
    ghost from_gives = { λ code number. number ≡ code_number code };

    fn from(code: Code) -> u16 {
        match code {
            Code::Header => 0,
            Code::NotOpen => 11,
            Code::SecurityIdentifier => 26,
            Code::TradeVolume => 29,
            Code::SaleCondition => 31,
            Code::SellerDays => 32,
            Code::Side => 33,
            Code::ActionTime => 60,
            Code::ExemptFlag => 87,
            Code::TradingAction => 88,
            Code::TradeId => 92,
        }
    }
}
