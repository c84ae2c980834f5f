// The mass trading actions: their letters in a frame, where each is applied, and what it makes of a quote mark.
ghost use Rattle.std.specs.Prelude.{◌≡◌};
ghost use Rattle.std.specs.Result.{result_ok};

use stats::record::QuoteMark;

#[derive(Clone, Copy, PartialEq, Eq, Debug)]
pub enum TradingAction {
    // quotes are taken again
    Resume,
    // quotes that stand are taken out
    WipeOut,
    // quotes are taken out, and none is taken until they resume
    Emergency,
}

// A byte is not the letter of a mass trading action.
#[derive(Clone, Copy, PartialEq, Eq, Debug)]
pub struct NoAction;

impl From<TradingAction> for u8 {
    ghost use Rattle.marks.specs.Actions.{action_letter};

    ghost from_gives = { λ action letter. letter ≡ action_letter action };

    fn from(action: TradingAction) -> u8 {
        match action {
            TradingAction::Resume => b'Q',
            TradingAction::WipeOut => b'W',
            TradingAction::Emergency => b'E',
        }
    }
}

impl TryFrom<u8> for TradingAction {
    ghost use Rattle.marks.specs.Actions.{action_of};

    type Error = NoAction;

    ghost try_from_gives = { λ letter made. result_ok made ≡ action_of letter };

    fn try_from(letter: u8) -> Result<TradingAction, NoAction> {
        match letter {
            b'Q' => Ok(TradingAction::Resume),
            b'W' => Ok(TradingAction::WipeOut),
            b'E' => Ok(TradingAction::Emergency),
            _ => Err(NoAction),
        }
    }
}

impl TradingAction {
    ghost use Rattle.marks.specs.Marks.{is_applied, mark_after};

    // Whether it is applied where this mark stands.
    pub fn is_applied(self, mark: QuoteMark) -> bool
        ensures { result ≡ is_applied self mark }
    {
        match (self, mark) {
            (TradingAction::Emergency, QuoteMark::Welcome) => true,
            (TradingAction::Emergency, QuoteMark::Barred) => false,
            (TradingAction::Resume, QuoteMark::Welcome) => false,
            (TradingAction::Resume, QuoteMark::Barred) => true,
            (TradingAction::WipeOut, _) => true,
        }
    }

    // The mark after it; where it is not applied, the mark that stood.
    pub fn mark_after(self, mark: QuoteMark) -> QuoteMark
        ensures { result ≡ mark_after self mark }
    {
        match self {
            TradingAction::Emergency => QuoteMark::Barred,
            TradingAction::Resume => QuoteMark::Welcome,
            TradingAction::WipeOut => mark,
        }
    }
}
