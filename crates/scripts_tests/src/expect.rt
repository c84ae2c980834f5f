// What a line is expected to be read as.
use cuts::cut::is_same;
use scripts::hex_word::decode;
use scripts::malformed::Malformed;
use scripts::read_call::read_call;
use scripts::script_call::{Request, ScriptCall};
use states::security_status::PostedAction;
use std::process::Abort;
use std::test::Fail;
use text::symbol::Symbol;

fn is_read_as(text: &[u8], wanted: Result<Option<ScriptCall<'_>>, Malformed>) -> Result<(), Fail> {
    if read_call(text) != wanted {
        return Err(Fail::new("the line was read otherwise"));
    }
    Ok(())
}

fn calls(text: &[u8], wanted: ScriptCall<'_>) -> Result<(), Fail> {
    is_read_as(text, Ok(Some(wanted)))
}

pub(crate) fn is_malformed(text: &[u8], fault: Malformed) -> Result<(), Fail> {
    is_read_as(text, Err(fault))
}

pub(crate) fn is_passed_over(text: &[u8]) -> Result<(), Fail> {
    is_read_as(text, Ok(None))
}

pub(crate) fn logs_in(text: &[u8], line: u64) -> Result<(), Fail> {
    calls(text, ScriptCall::LogIn(line))
}

pub(crate) fn hangs_up(text: &[u8], line: u8) -> Result<(), Fail> {
    calls(text, ScriptCall::HangUp(line))
}

pub(crate) fn opens(text: &[u8]) -> Result<(), Fail> {
    calls(text, ScriptCall::Open)
}

pub(crate) fn closes(text: &[u8]) -> Result<(), Fail> {
    calls(text, ScriptCall::Close)
}

pub(crate) fn decodes(rt: &impl Abort, hex: &[u8], frame: &[u8]) -> Result<(), Fail> {
    let mut bytes = [0xee; 8];
    let Some(size) = decode(hex, &mut bytes) else {
        return Err(Fail::new("the frame was not decoded"));
    };
    assert!(rt; size <= 8);
    assert!(rt; is_same(&bytes[0..size], frame));
    Ok(())
}

pub(crate) fn sends(
    rt: &impl Abort,
    text: &[u8],
    line: u8,
    time: u64,
    buffer: u16,
    frame: &[u8],
) -> Result<(), Fail> {
    let Ok(Some(ScriptCall::Send { request, hex })) = read_call(text) else {
        return Err(Fail::new("the line does not send"));
    };
    assert!(rt; request == Request { line, time, buffer });
    decodes(rt, hex, frame)
}

pub(crate) fn inquires(
    text: &[u8],
    line: u8,
    time: u64,
    buffer: u16,
    symbol: &Symbol,
) -> Result<(), Fail> {
    calls(
        text,
        ScriptCall::Inquire {
            request: Request { line, time, buffer },
            symbol: *symbol,
        },
    )
}

pub(crate) fn posts(text: &[u8], symbol: &Symbol, action: PostedAction) -> Result<(), Fail> {
    calls(
        text,
        ScriptCall::Post {
            symbol: *symbol,
            action,
        },
    )
}

pub(crate) fn asks_center(text: &[u8], line: u64, symbol: &Symbol) -> Result<(), Fail> {
    calls(
        text,
        ScriptCall::CenterSheet {
            line,
            symbol: *symbol,
        },
    )
}

pub(crate) fn asks_consolidated(text: &[u8], symbol: &Symbol) -> Result<(), Fail> {
    calls(text, ScriptCall::ConsolidatedSheet { symbol: *symbol })
}
