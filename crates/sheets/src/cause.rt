// Why a day sheet is refused.
ghost use Rattle.std.specs.Prelude.{◌≡◌};
ghost use Rattle.sheets.specs.Cause.{number_of};

#[derive(Clone, Copy, PartialEq, Eq, Debug)]
pub enum Cause {
    Unended = 201,
    TooLong = 202,
    UnknownRow = 203,
    FieldCount = 204,
    FieldForm = 205,
    OutOfOrder = 206,
    TooMany = 207,
    Incomplete = 208,
}

impl From<Cause> for u16 {
    ghost from_gives = { λ cause number. number ≡ number_of cause };

    fn from(cause: Cause) -> u16 {
        cause as u16
    }
}
