// What a line of a script calls for.
use states::security_status::PostedAction;
use text::symbol::Symbol;

// What a call on a ticket says in front: the ticket's line, a SIP time, and a buffer of so many bytes.
#[derive(Clone, Copy, PartialEq, Eq)]
pub struct Request {
    pub line: u8,
    pub time: u64,
    pub buffer: u16,
}

#[derive(Clone, Copy, PartialEq, Eq)]
pub enum ScriptCall<'a> {
    // the number of a line of the day, whether there is such a line or not
    LogIn(u64),
    // a frame in hex
    Send {
        request: Request,
        hex: &'a [u8],
    },
    Inquire {
        request: Request,
        symbol: Symbol,
    },
    HangUp(u8),
    Open,
    Close,
    Post {
        symbol: Symbol,
        action: PostedAction,
    },
    // a market center's sheet of a security
    CenterSheet {
        line: u64,
        symbol: Symbol,
    },
    ConsolidatedSheet {
        symbol: Symbol,
    },
}
