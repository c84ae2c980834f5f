// The standard code book: the published codes of a trade report.
ghost use Rattle.std.specs.Prelude.{◌≡◌};
ghost use Rattle.cuts.specs.Cut.{has};
ghost use Rattle.books.specs.Standard.{reasons as reasons_of, standard_sets, values as values_of};

use crate::code_book::CodeBook;
use sheets::bucket::Bucket;

#[derive(Clone, Copy)]
pub struct StandardBook;

fn values(bucket: Bucket) -> &'static [u8]
    ensures { result.now ≡ values_of bucket }
{
    match bucket {
        Bucket::One => b"@CNRY",
        Bucket::Two => b"FO456789 ",
        Bucket::Three => b"TLZU ",
        Bucket::Four => b"1ABDEGHIKMPQSVWX ",
    }
}

// By `any`, which is inlined: the library's `contains` is a call, and a question took up to twice the time.
fn contains(codes: &[u8], code: u8) -> bool
    ensures { result ≡ has code codes.now }
{
    codes.iter().any(|other| *other == code)
}

// The second bytes of a condition that may stand beside a flag.
fn reasons(flag: u8) -> &'static [u8]
    ensures { result.now ≡ reasons_of flag }
{
    match flag {
        b'X' => values(Bucket::Two),
        b' ' => b"O56 ",
        _ => b"",
    }
}

impl CodeBook for StandardBook {
    ghost sets = { λ _. standard_sets };

    fn accepts_flag(&self, flag: u8) -> bool {
        contains(b"X ", flag)
    }

    fn accepts_side(&self, side: u8) -> bool {
        contains(b"BSXR", side)
    }

    fn accepts_value(&self, bucket: Bucket, value: u8) -> bool {
        contains(values(bucket), value)
    }

    fn go_together(&self, flag: u8, condition: &[u8]) -> bool {
        match condition {
            [settlement, reason, hours, detail] => {
                contains(values(Bucket::One), *settlement)
                    && contains(reasons(flag), *reason)
                    && contains(values(Bucket::Three), *hours)
                    && contains(values(Bucket::Four), *detail)
            }
            _ => false,
        }
    }
}
