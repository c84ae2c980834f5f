// The answer to a frame: a letter, a code, a row and a count.
ghost use Rattle.std.specs.Prelude.{◌≡◌};
ghost use Rattle.verdicts.specs.Answer.{answer_code, answer_count, answer_letter, answer_row, failed};

use crate::code::Code;
use crate::row::Row;

// Why a frame was rejected or its line cut.
#[derive(Clone, Copy, PartialEq, Eq, Debug)]
pub struct Reason {
    pub code: Code,
    pub row: Row,
}

// What becomes of a frame that fails a row.
#[derive(Clone, Copy, PartialEq, Eq, Debug)]
pub enum Verdict {
    // its feed sequence is below the expected one, as that of a frame sent again
    PassedOver,
    Rejected(Reason),
    // the line is cut, until it hangs up
    Cut(Reason),
}

// The four letters that a frame is answered. No `Result`: to be passed over is no error of the frame's, and a caller asks for the letter.
#[derive(Clone, Copy, PartialEq, Eq, Debug)]
pub enum Answer {
    // with the number of securities that a mass trading action was applied to, and 0 for a trade report
    Taken(usize),
    PassedOver,
    Rejected(Reason),
    Cut(Reason),
}

// The answer to a frame that fails a row.
impl From<Verdict> for Answer {
    ghost from_gives = { λ verdict answer. answer ≡ failed verdict };

    fn from(verdict: Verdict) -> Answer {
        match verdict {
            Verdict::PassedOver => Answer::PassedOver,
            Verdict::Rejected(reason) => Answer::Rejected(reason),
            Verdict::Cut(reason) => Answer::Cut(reason),
        }
    }
}

// Four parts of one answer, as it is told: a number each, 0 where there is none. Methods, since a conversion would not say which.
impl Answer {
    pub fn letter(&self) -> u8
        ensures { result ≡ answer_letter self.now }
    {
        match self {
            Answer::Taken(_) => b'T',
            Answer::PassedOver => b'P',
            Answer::Rejected(_) => b'R',
            Answer::Cut(_) => b'C',
        }
    }

    // The code's number, and 0 where there is none.
    pub fn code(&self) -> u16
        ensures { result ≡ answer_code self.now }
    {
        match self {
            Answer::Rejected(reason) | Answer::Cut(reason) => u16::from(reason.code),
            Answer::Taken(_) | Answer::PassedOver => 0,
        }
    }

    // The row's number, and 0 where there is none.
    pub fn row(&self) -> u16
        ensures { result ≡ answer_row self.now }
    {
        match self {
            Answer::Rejected(reason) | Answer::Cut(reason) => u16::from(reason.row),
            Answer::Taken(_) | Answer::PassedOver => 0,
        }
    }

    pub fn count(&self) -> usize
        ensures { result ≡ answer_count self.now }
    {
        match self {
            Answer::Taken(count) => *count,
            Answer::PassedOver | Answer::Rejected(_) | Answer::Cut(_) => 0,
        }
    }
}
