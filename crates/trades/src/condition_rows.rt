// What has to hold of a sale condition.
ghost use Rattle.std.specs.Prelude.{◌≡◌, length};
ghost use Rattle.books.specs.Sets.{in_some_bucket};
ghost use Rattle.trades.specs.TradeRows.{days_fit, each_byte, each_in_own_bucket};

use books::code_book::{CodeBook, accepts_in_some_bucket};
use cuts::cut::contains;
use sheets::bucket::Bucket;

pub(crate) fn is_each_in_some_bucket<B: CodeBook>(book: &B, condition: &[u8]) -> bool
    requires { length condition.now ≡ 4 }
    ensures { result ≡ each_byte (in_some_bucket (B.CodeBook.sets book.now)) condition.now }
{
    condition
        .iter()
        .all(|value| accepts_in_some_bucket(book, *value))
}

// By index: the length is known, and a pattern of four would have an arm for what never is.
pub(crate) fn is_each_in_own_bucket<B: CodeBook>(book: &B, condition: &[u8]) -> bool
    requires { length condition.now ≡ 4 }
    ensures { result ≡ each_in_own_bucket (B.CodeBook.sets book.now) condition.now }
{
    book.accepts_value(Bucket::One, condition[0])
        && book.accepts_value(Bucket::Two, condition[1])
        && book.accepts_value(Bucket::Three, condition[2])
        && book.accepts_value(Bucket::Four, condition[3])
}

// Whether the seller's days fit the condition.
pub(crate) fn do_days_fit(condition: &[u8], days: u16) -> bool
    ensures { result ≡ days_fit condition.now days }
{
    if contains(condition, b'R') {
        (2..=60).contains(&days)
    } else {
        days == 0
    }
}
