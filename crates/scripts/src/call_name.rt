// The names of calls, the first word of a line.
ghost use Rattle.std.specs.Prelude.{◌≡◌};
ghost use Rattle.scripts.specs.CallName.{name_in};
ghost use Rattle.scripts.specs.WordForm.{formed};
ghost use Rattle.scripts.specs.declared.malformed.Malformed.TheVariants.{UnknownCall};

use crate::malformed::Malformed;

#[derive(Clone, Copy)]
pub(crate) enum CallName {
    LogIn,
    Send,
    Inquire,
    HangUp,
    Open,
    Close,
    Post,
    Sheet,
}

impl TryFrom<&[u8]> for CallName {
    type Error = Malformed;

    ghost try_from_gives = { λ word outcome. outcome ≡ formed UnknownCall (name_in word.now) };

    fn try_from(word: &[u8]) -> Result<CallName, Malformed> {
        match word {
            b"login" => Ok(CallName::LogIn),
            b"send" => Ok(CallName::Send),
            b"inquire" => Ok(CallName::Inquire),
            b"hangup" => Ok(CallName::HangUp),
            b"open" => Ok(CallName::Open),
            b"close" => Ok(CallName::Close),
            b"post" => Ok(CallName::Post),
            b"sheet" => Ok(CallName::Sheet),
            _ => Err(Malformed::UnknownCall),
        }
    }
}
