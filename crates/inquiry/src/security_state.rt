// The state of a security.
ghost use Rattle.std.specs.Prelude.{◌≡◌};
ghost use Rattle.inquiry.specs.SecurityState.{state_letter};

// A security starts out trading.
#[derive(Clone, Copy, PartialEq, Eq, Debug)]
pub enum SecurityState {
    Trading,
    Quoting,
    Paused,
    Halted,
}

// A state's letter in the answer to an inquiry.
impl From<SecurityState> for u8 {
    ghost from_gives = { λ state letter. letter ≡ state_letter state };

    fn from(state: SecurityState) -> u8 {
        match state {
            SecurityState::Trading => b'T',
            SecurityState::Quoting => b'Q',
            SecurityState::Paused => b'P',
            SecurityState::Halted => b'H',
        }
    }
}
