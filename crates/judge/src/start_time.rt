// The time at which a day starts, as a word on the command line.
ghost use Rattle.judge.specs.StartTime.{ReadsTime};

use scripts::number::number_in;

// A time is written as a script's numbers are: in one way only, with no sign and no zero in front.
pub(crate) fn start_time(word: &str) -> Option<u64>
    ensures { ReadsTime word.now result }
{
    number_in(word.as_bytes())
}
