// The frames of a recording, one after the other.
ghost use Rattle.std.specs.Prelude.{◌≡◌, ◌≤◌, length};
ghost use Rattle.std.specs.Iterator.{at_most};

use crate::recording::{Cut, front_frame};

// Where a recording stops short, and the byte at which what is cut begins.
#[derive(Clone, Copy, PartialEq, Eq, Debug)]
pub struct CutShort {
    pub cut: Cut,
    pub at: usize,
}

// Gives each frame in turn. Where the recording is cut it says so, and gives nothing after that.
#[derive(Drop)]
pub struct Frames<'a> {
    recording: &'a [u8],
    // where the next frame's length begins
    at: usize,
    ghost within: { at ≤ length recording.now },
}

impl<'a> Frames<'a> {
    ghost use Rattle.wire.specs.Frames.{StartsAt};

    pub fn of(recording: &'a [u8]) -> Frames<'a>
        ensures { StartsAt result recording.now 0 }
    {
        Frames { recording, at: 0 }
    }
}

impl<'a> Iterator for Frames<'a> {
    type Item = Result<&'a [u8], CutShort>;

    ghost use Rattle.wire.specs.Frames.{GivesFrame, bytes_left};

    ghost next_gives = { GivesFrame };

    ghost remaining = { λ frames. at_most (bytes_left frames) };

    fn next(&mut self) -> Option<Result<&'a [u8], CutShort>> {
        let at = self.at;
        let rest = &self.recording[at..];
        if rest.is_empty() {
            return None;
        }
        match front_frame(rest) {
            Ok(frame) => {
                self.at += 2 + frame.len();
                Some(Ok(frame))
            }
            Err(cut) => {
                self.at = self.recording.len();
                Some(Err(CutShort { cut, at }))
            }
        }
    }
}
