// The judgement of a frame of any kind.
ghost use Rattle.std.specs.Prelude.{◌≡◌, false, Err, codes};
ghost use Rattle.lines.specs.Judgement.{cut_as_unknown, judged, names};

use actions::action_kind::Mass;
use books::code_book::CodeBook;
use rows::context::Context;
use rows::kind::walk;
use trades::trade_kind::Trade;
use verdicts::answer::Verdict;
use wire::mass_action::MassAction;
use wire::trade_report::TradeReport;

// A frame that no row refuses, by its fields.
#[derive(Clone, Copy, PartialEq, Eq, Debug)]
pub enum Message {
    Trade(TradeReport),
    Mass(MassAction),
}

fn names_mass(frame: &[u8]) -> bool
    ensures { result ≡ names (codes "AU") frame.now }
{
    frame.len() >= 3 && frame[1..3] == b"AU"[..]
}

// Judges a frame as the kind that its letters name. A frame of no kind is cut at the version or at the kind.
#[tactic(auto, using(crate::proofs::Named::unknown_cut), unfolding(crate::specs::Judgement::judged))]
pub fn judge<B: CodeBook>(frame: &[u8], context: &Context, book: &B) -> Result<Message, Verdict>
    ensures value { result ≡ judged (B.CodeBook.sets book.now) context.now frame.now }
    ensures unknown { names (codes "TE") frame.now ≡ false → names (codes "AU") frame.now ≡ false → result ≡ Err (cut_as_unknown frame.now) }
{
    if names_mass(frame) {
        walk::<Mass, B>(frame, context, book).map(Message::Mass)
    } else {
        walk::<Trade, B>(frame, context, book).map(Message::Trade)
    }
}
