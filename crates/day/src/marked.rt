// The marked cases, by which candidates are trained.
ghost use Rattle.std.specs.Prelude.{◌≡◌, length};
ghost use Rattle.day.specs.Marked.{cases, Marked};

// How many there are. By the definitions each is answered, and leaves what it leaves, as the table of cases says.
pub fn marked_case_count() -> u8
    ensures count { result ≡ length cases }
    ensures marked { Marked }
{
    13
}
