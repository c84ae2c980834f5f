// The parts of a mass trading action's frame that its rows look at.
ghost use Rattle.std.specs.Prelude.{◌≡◌, length};

use wire::number::Number;

// A frame that is as long as a mass trading action. A trade report's has the same constructor, and no other part in common.
#[derive(Drop)]
pub(crate) struct MassFrame<'a> {
    bytes: &'a [u8],
    ghost whole: { length bytes.now ≡ 60 },
}

impl<'a> MassFrame<'a> {
    ghost use Rattle.wire.specs.MassAction.{action_fields};

    pub(crate) fn new(bytes: &'a [u8]) -> MassFrame<'a>
        requires { length bytes.now ≡ 60 }
        ensures { result.bytes.now ≡ bytes.now }
    {
        MassFrame { bytes }
    }

    pub(crate) fn first(&self) -> &'a [u8]
        ensures { result.now ≡ (action_fields self.now.bytes.now).first }
    {
        &self.bytes[29..40]
    }

    pub(crate) fn last(&self) -> &'a [u8]
        ensures { result.now ≡ (action_fields self.now.bytes.now).last }
    {
        &self.bytes[40..51]
    }

    pub(crate) fn action(&self) -> u8
        ensures { result ≡ (action_fields self.now.bytes.now).action }
    {
        self.bytes[51]
    }

    pub(crate) fn action_time(&self) -> u64
        ensures { result ≡ (action_fields self.now.bytes.now).action_time }
    {
        u64::of_part(&self.bytes[52..60])
    }
}
