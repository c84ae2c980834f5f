// What the rows may look at besides the frame and the code book.
ghost use Rattle.std.specs.Prelude.{◌≡◌};
ghost use Rattle.rows.specs.Context.{is_open};

// Where a practice day stands.
#[derive(Clone, Copy, PartialEq, Eq)]
pub enum Phase {
    // made, and not opened yet
    Fresh,
    Open,
    Closed,
}

impl Phase {
    pub fn is_open(&self) -> bool
        ensures { result ≡ is_open self.now }
    {
        matches!(self, Phase::Open)
    }
}

#[derive(Clone, Copy)]
pub struct Context {
    // of the line that the frame came on
    pub originator: [u8; 2],
    // what the line's next frame must have
    pub expected_sequence: u64,
    // where the security that the frame names stands in the list, if it does
    pub security: Option<usize>,
    // what the line's next report of that security must have; where it is not listed a row above asks for that, so no `Option` is due
    pub expected_trade_id: u32,
    pub phase: Phase,
    // when the day started
    pub start: u64,
    pub sip_time: u64,
}
