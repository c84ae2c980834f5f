// What is asked of a code book.
ghost use Rattle.std.specs.Prelude.{◌≡◌, false};
ghost use Rattle.books.specs.Sets.{anywhere, in_some_bucket, Sets};

use sheets::bucket::Bucket;

// A code book says which codes a trade report may carry: its meaning is a set of exempt flags, a set of sides, a set of values for
// each of the four buckets of a sale condition, and a set of pairs of a flag and a condition that may go together. Each answer
// depends on the book and the question alone. A part of the meaning is that no book accepts a comma, which parts the fields of what
// is written of a report.
pub trait CodeBook {
    ghost sets: { Self → Sets };

    fn accepts_flag(&self, flag: u8) -> bool
        ensures { result ≡ (sets self.now).flags flag };

    fn accepts_side(&self, side: u8) -> bool
        ensures { result ≡ (sets self.now).sides side };

    fn accepts_value(&self, bucket: Bucket, value: u8) -> bool
        ensures { result ≡ (sets self.now).values bucket value };

    // Whether a flag and the bytes of a condition may go together.
    fn go_together(&self, flag: u8, condition: &[u8]) -> bool
        ensures { result ≡ (sets self.now).pairs flag condition.now };
}

// Whether a book accepts a byte as a value of any bucket.
pub fn accepts_in_some_bucket<B: CodeBook>(book: &B, byte: u8) -> bool
    ensures { result ≡ in_some_bucket (B.CodeBook.sets book.now) byte }
{
    Bucket::ALL
        .iter()
        .any(|bucket| book.accepts_value(*bucket, byte))
}

// Whether a book accepts a byte as a flag, as a side, or as a value of any bucket. No book accepts a comma.
pub fn accepts_anywhere<B: CodeBook>(book: &B, byte: u8) -> bool
    ensures value { result ≡ anywhere (B.CodeBook.sets book.now) byte }
    ensures comma { byte ≡ 44 → result ≡ false }
{
    book.accepts_flag(byte) || book.accepts_side(byte) || accepts_in_some_bucket(book, byte)
}
