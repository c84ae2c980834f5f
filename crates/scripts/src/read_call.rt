// The call that a line of a script is.
ghost use Rattle.std.specs.Prelude.{◌≡◌};
ghost use Rattle.scripts.specs.Asked.{asked_in, asked_of};
ghost use Rattle.scripts.specs.Call.{call_in, call_of, center_sheet_of, hang_up_of, inquire_of, log_in_of, passed_over, post_of, request_of, send_of, sheet_of};

use crate::call_name::CallName;
use crate::hex_word::is_hex;
use crate::malformed::Malformed;
use crate::script_call::{Request, ScriptCall};
use crate::word::{word, word_count};
use crate::word_form::{
    action_word, buffer_word, check_count, line_word, symbol_word, ticket_word, time_word,
};

fn read_log_in(line: &[u8]) -> Result<ScriptCall<'_>, Malformed>
    ensures { asked_of result ≡ log_in_of line.now }
{
    check_count(line, 2)?;
    Ok(ScriptCall::LogIn(line_word(word(line, 1))?))
}

// The three words in front of what is sent or inquired.
fn read_request(line: &[u8]) -> Result<Request, Malformed>
    ensures { result ≡ request_of line.now }
{
    Ok(Request {
        line: ticket_word(word(line, 1))?,
        time: time_word(word(line, 2))?,
        buffer: buffer_word(word(line, 3))?,
    })
}

fn read_send(line: &[u8]) -> Result<ScriptCall<'_>, Malformed>
    ensures { asked_of result ≡ send_of line.now }
{
    check_count(line, 5)?;
    let request = read_request(line)?;
    let hex = word(line, 4);
    if !is_hex(hex) {
        return Err(Malformed::Hex);
    }
    Ok(ScriptCall::Send { request, hex })
}

fn read_inquire(line: &[u8]) -> Result<ScriptCall<'_>, Malformed>
    ensures { asked_of result ≡ inquire_of line.now }
{
    check_count(line, 5)?;
    let request = read_request(line)?;
    let symbol = symbol_word(word(line, 4))?;
    Ok(ScriptCall::Inquire { request, symbol })
}

fn read_hang_up(line: &[u8]) -> Result<ScriptCall<'_>, Malformed>
    ensures { asked_of result ≡ hang_up_of line.now }
{
    check_count(line, 2)?;
    Ok(ScriptCall::HangUp(ticket_word(word(line, 1))?))
}

fn read_post(line: &[u8]) -> Result<ScriptCall<'_>, Malformed>
    ensures { asked_of result ≡ post_of line.now }
{
    check_count(line, 3)?;
    Ok(ScriptCall::Post {
        symbol: symbol_word(word(line, 1))?,
        action: action_word(word(line, 2))?,
    })
}

fn read_center_sheet(line: &[u8]) -> Result<ScriptCall<'_>, Malformed>
    ensures { asked_of result ≡ center_sheet_of line.now }
{
    check_count(line, 3)?;
    Ok(ScriptCall::CenterSheet {
        line: line_word(word(line, 1))?,
        symbol: symbol_word(word(line, 2))?,
    })
}

// Two words ask for the consolidated sheet, three for a market center's.
fn read_sheet(line: &[u8]) -> Result<ScriptCall<'_>, Malformed>
    ensures { asked_of result ≡ sheet_of line.now }
{
    if word_count(line) != 2 {
        return read_center_sheet(line);
    }
    let symbol = symbol_word(word(line, 1))?;
    Ok(ScriptCall::ConsolidatedSheet { symbol })
}

// The call of a line that is not passed over, by its name.
fn read_words(line: &[u8]) -> Result<ScriptCall<'_>, Malformed>
    ensures { asked_of result ≡ call_of line.now }
{
    match CallName::try_from(word(line, 0))? {
        CallName::LogIn => read_log_in(line),
        CallName::Send => read_send(line),
        CallName::Inquire => read_inquire(line),
        CallName::HangUp => read_hang_up(line),
        CallName::Open => check_count(line, 1).and(Ok(ScriptCall::Open)),
        CallName::Close => check_count(line, 1).and(Ok(ScriptCall::Close)),
        CallName::Post => read_post(line),
        CallName::Sheet => read_sheet(line),
    }
}

// Whether a line is empty or begins with `#`.
fn is_passed_over(line: &[u8]) -> bool
    ensures { result ≡ passed_over line.now }
{
    matches!(line, [] | [b'#', ..])
}

// The call that a line is, none where the line is passed over, or what is wrong with it, from the front on. The line is
// without the byte 10 at its end.
pub fn read_call(line: &[u8]) -> Result<Option<ScriptCall<'_>>, Malformed>
    ensures { asked_in result ≡ call_in line.now }
{
    if is_passed_over(line) {
        return Ok(None);
    }
    Ok(Some(read_words(line)?))
}
