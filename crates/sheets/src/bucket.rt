// A report's sale condition is four bytes, each in a bucket of its own. A sheet names a bucket by its digit.
ghost use Rattle.std.specs.Prelude.{◌≡◌};
ghost use Rattle.std.specs.Result.{result_ok};
ghost use Rattle.sheets.specs.Forms.{bucket_of, digit_of};

#[derive(Clone, Copy, PartialEq, Eq, Debug)]
pub enum Bucket {
    One,
    Two,
    Three,
    Four,
}

impl Bucket {
    pub const ALL: [Bucket; 4] = [Bucket::One, Bucket::Two, Bucket::Three, Bucket::Four];
}

// The byte is no bucket's digit.
#[derive(Clone, Copy, PartialEq, Eq, Debug)]
pub struct NoBucket;

impl From<Bucket> for u8 {
    ghost from_gives = { λ bucket digit. digit ≡ digit_of bucket };

    fn from(bucket: Bucket) -> u8 {
        match bucket {
            Bucket::One => b'1',
            Bucket::Two => b'2',
            Bucket::Three => b'3',
            Bucket::Four => b'4',
        }
    }
}

impl TryFrom<u8> for Bucket {
    type Error = NoBucket;

    ghost try_from_gives = { λ digit outcome. result_ok outcome ≡ bucket_of digit };

    fn try_from(digit: u8) -> Result<Bucket, NoBucket> {
        match digit {
            b'1' => Ok(Bucket::One),
            b'2' => Ok(Bucket::Two),
            b'3' => Ok(Bucket::Three),
            b'4' => Ok(Bucket::Four),
            _ => Err(NoBucket),
        }
    }
}
