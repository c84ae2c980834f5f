// What a practice day keeps of a security, and how the operator's actions change its state.
ghost use Rattle.std.specs.Prelude.{◌≡◌};
ghost use Rattle.states.specs.SecurityStatus.{fresh_security, leads_to};

use inquiry::security_state::SecurityState;

// What the operator may post on a security.
#[derive(Clone, Copy, PartialEq, Eq, Debug)]
pub enum PostedAction {
    Halt,
    Pause,
    Quote,
    Trade,
}

#[derive(Clone, Copy, PartialEq, Eq, Debug)]
pub struct SecurityStatus {
    pub state: SecurityState,
    // how many actions were posted on it
    pub posted: u32,
}

// Before any action a security trades.
impl Default for SecurityStatus {
    ghost is_default = { λ status. status ≡ fresh_security };

    fn default() -> SecurityStatus {
        SecurityStatus {
            state: SecurityState::Trading,
            posted: 0,
        }
    }
}

// The state that an action leads to, and none where it does not lead from this state.
pub fn next_state(state: SecurityState, action: PostedAction) -> Option<SecurityState>
    ensures { result ≡ leads_to state action }
{
    match (state, action) {
        (SecurityState::Trading, PostedAction::Halt) => Some(SecurityState::Halted),
        (SecurityState::Quoting, PostedAction::Halt) => Some(SecurityState::Halted),
        (SecurityState::Paused, PostedAction::Halt) => Some(SecurityState::Halted),
        (SecurityState::Trading, PostedAction::Pause) => Some(SecurityState::Paused),
        (SecurityState::Halted, PostedAction::Quote) => Some(SecurityState::Quoting),
        (SecurityState::Paused, PostedAction::Quote) => Some(SecurityState::Quoting),
        (SecurityState::Quoting, PostedAction::Trade) => Some(SecurityState::Trading),
        _ => None,
    }
}
