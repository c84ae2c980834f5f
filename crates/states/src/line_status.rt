// What a practice day keeps of a line, besides its records.
ghost use Rattle.std.specs.Prelude.{◌≡◌};
ghost use Rattle.states.specs.LineStatus.{fresh_line};

use verdicts::answer::Reason;

#[derive(Clone, Copy, PartialEq, Eq, Debug)]
pub struct LineStatus {
    // beside the cut, as the definition of a day keeps both: a line that is cut stays logged in
    pub logged_in: bool,
    // why the line was cut, from then on until it hangs up
    pub cut: Option<Reason>,
    // the feed sequence that the line's next frame must have
    pub expected_sequence: u64,
    // the frames that were taken or rejected
    pub consumed: u32,
}

// A line that nobody has logged in to yet: feed sequences begin at 1.
impl Default for LineStatus {
    ghost is_default = { λ status. status ≡ fresh_line };

    fn default() -> LineStatus {
        LineStatus {
            logged_in: false,
            cut: None,
            expected_sequence: 1,
            consumed: 0,
        }
    }
}
