// Where a recording stops short, in words for people.
ghost use Rattle.std.specs.Prelude.{◌≡◌, Some};
ghost use Rattle.show.specs.CutText.{cut_text, cut_words};

use std::fmt;
use wire::frames::CutShort;
use wire::recording::Cut;

// What a recording ends inside; the byte at which that begins is told after it.
pub fn part_cut(cut: Cut) -> &'static str
    ensures { result.now ≡ cut_words cut }
{
    match cut {
        Cut::InLength => "the length that begins",
        Cut::InFrame => "the frame whose length stands",
    }
}

#[derive(Clone, Copy)]
pub struct CutText(pub CutShort);

impl fmt::Display for CutText {
    ghost output = { λ shown. Some (cut_text shown.0) };

    fn fmt<W: fmt::Write>(&self, f: &mut fmt::Formatter<W>) -> fmt::Result {
        let part = part_cut(self.0.cut);
        let at = self.0.at;
        write!(f, "the recording ends inside {part} at byte {at}")
    }
}
