// A sheet as a plain record, which may hold any values.
ghost use Rattle.std.specs.Prelude.{◌≡◌};

// High, low, last and volume. `Last` is a price on a market center's sheet, and a `LastSale` on the consolidated one.
#[derive(Clone, Copy, PartialEq, Eq, Debug)]
pub struct PlainSheet<Last> {
    pub high: Option<u64>,
    pub low: Option<u64>,
    pub last: Option<Last>,
    pub volume: u64,
}

// The sheet before any report. By hand: a derived one would ask that `Last` has a default.
impl<Last> Default for PlainSheet<Last> {
    ghost use Rattle.stats.specs.Plain.{empty_sheet};

    ghost is_default = { λ sheet. sheet ≡ empty_sheet };

    fn default() -> PlainSheet<Last> {
        PlainSheet {
            high: None,
            low: None,
            last: None,
            volume: 0,
        }
    }
}
