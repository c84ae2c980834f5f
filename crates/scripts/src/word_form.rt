// The forms of a call's words, and what is wrong with a word that has not its form.
ghost use Rattle.std.specs.Prelude.{◌≡◌, Ok};
ghost use Rattle.scripts.specs.WordForm.{action_word, buffer_word, counted, line_word, symbol_word, ticket_word, time_word};

use crate::malformed::Malformed;
use crate::number::number_in;
use crate::word::word_count;
use sheets::field_layer::visible_symbol;
use states::security_status::PostedAction;
use text::symbol::Symbol;

// As `sheets` asks for the fields of a line, with another count and another error.
pub(crate) fn check_count(line: &[u8], number: usize) -> Result<(), Malformed>
    ensures { result ≡ counted number line.now (Ok tt) }
{
    if word_count(line) != number {
        return Err(Malformed::WordCount);
    }
    Ok(())
}

// The number of a line of the day, whether there is such a line or not.
pub(crate) fn line_word(word: &[u8]) -> Result<u64, Malformed>
    ensures { result ≡ line_word word.now }
{
    number_in(word).ok_or(Malformed::LineNumber)
}

// The number of a line that a ticket can be of: a day has at most 16 lines.
pub(crate) fn ticket_word(word: &[u8]) -> Result<u8, Malformed>
    ensures { result ≡ ticket_word word.now }
{
    number_in(word)
        .and_then(|n| u8::try_from(n).ok())
        .filter(|n| *n < 16)
        .ok_or(Malformed::LineNumber)
}

pub(crate) fn time_word(word: &[u8]) -> Result<u64, Malformed>
    ensures { result ≡ time_word word.now }
{
    number_in(word).ok_or(Malformed::Time)
}

pub(crate) fn buffer_word(word: &[u8]) -> Result<u16, Malformed>
    ensures { result ≡ buffer_word word.now }
{
    number_in(word)
        .and_then(|n| u16::try_from(n).ok())
        .ok_or(Malformed::Buffer)
}

// A word as a symbol: 1 to 11 visible bytes.
pub(crate) fn symbol_word(word: &[u8]) -> Result<Symbol, Malformed>
    ensures { result ≡ symbol_word word.now }
{
    visible_symbol(word).ok_or(Malformed::SymbolWord)
}

// An action is the type of a crate below, so that this is a function, and no `TryFrom`.
pub(crate) fn action_word(word: &[u8]) -> Result<PostedAction, Malformed>
    ensures { result ≡ action_word word.now }
{
    match word {
        b"halt" => Ok(PostedAction::Halt),
        b"pause" => Ok(PostedAction::Pause),
        b"quote" => Ok(PostedAction::Quote),
        b"trade" => Ok(PostedAction::Trade),
        _ => Err(Malformed::Action),
    }
}
