// The parts of a trade report's frame that its rows look at.
ghost use Rattle.std.specs.Prelude.{◌≡◌, length};

use wire::number::Number;

// A frame that is as long as a trade report. A mass trading action's has the same constructor, and no other part in common.
#[derive(Drop)]
pub(crate) struct TradeFrame<'a> {
    bytes: &'a [u8],
    ghost whole: { length bytes.now ≡ 72 },
}

impl<'a> TradeFrame<'a> {
    ghost use Rattle.wire.specs.TradeReport.{fields_of};

    pub(crate) fn new(bytes: &'a [u8]) -> TradeFrame<'a>
        requires { length bytes.now ≡ 72 }
        ensures { result.bytes.now ≡ bytes.now }
    {
        TradeFrame { bytes }
    }

    pub(crate) fn symbol(&self) -> &'a [u8]
        ensures { result.now ≡ (fields_of self.now.bytes.now).symbol }
    {
        &self.bytes[37..48]
    }

    pub(crate) fn trade_id(&self) -> u32
        ensures { result ≡ (fields_of self.now.bytes.now).trade_id }
    {
        u32::of_part(&self.bytes[48..52])
    }

    pub(crate) fn exempt_flag(&self) -> u8
        ensures { result ≡ (fields_of self.now.bytes.now).exempt_flag }
    {
        self.bytes[52]
    }

    pub(crate) fn condition(&self) -> &'a [u8]
        ensures value { result.now ≡ (fields_of self.now.bytes.now).condition }
        ensures wide { length result.now ≡ 4 }
    {
        &self.bytes[53..57]
    }

    pub(crate) fn seller_days(&self) -> u16
        ensures { result ≡ (fields_of self.now.bytes.now).seller_days }
    {
        u16::of_part(&self.bytes[57..59])
    }

    pub(crate) fn side(&self) -> u8
        ensures { result ≡ (fields_of self.now.bytes.now).side }
    {
        self.bytes[59]
    }

    pub(crate) fn volume(&self) -> u32
        ensures { result ≡ (fields_of self.now.bytes.now).volume }
    {
        u32::of_part(&self.bytes[68..72])
    }
}
