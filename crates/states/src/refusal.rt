// Why a call is refused.
ghost use Rattle.std.specs.Prelude.{◌≡◌};
ghost use Rattle.states.specs.Refusal.{refusal_number};

#[derive(Clone, Copy, PartialEq, Eq, Debug)]
pub enum Refusal {
    NoSuchLine,
    AlreadyLoggedIn,
    // the ticket's line is not logged in on this day
    NotLoggedIn,
    LineCut,
    // the line has consumed as many frames as it may
    FramesSpent,
    ShortBuffer,
    NotListed,
    WrongPhase,
    // the action does not lead anywhere from the security's state
    NoTransition,
    // the security has had as many actions as it may
    ActionsSpent,
    // fewer records were lent than there are lines times securities
    TooFewRecords,
}

// A refusal's number, as the calls tell it.
impl From<Refusal> for u16 {
    ghost from_gives = { λ refusal number. number ≡ refusal_number refusal };

    fn from(refusal: Refusal) -> u16 {
        match refusal {
            Refusal::NoSuchLine => 1,
            Refusal::AlreadyLoggedIn => 2,
            Refusal::NotLoggedIn => 3,
            Refusal::LineCut => 4,
            Refusal::FramesSpent => 5,
            Refusal::ShortBuffer => 6,
            Refusal::NotListed => 7,
            Refusal::WrongPhase => 8,
            Refusal::NoTransition => 9,
            Refusal::ActionsSpent => 10,
            Refusal::TooFewRecords => 11,
        }
    }
}
