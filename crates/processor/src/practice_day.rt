// A practice day.
ghost use Rattle.processor.specs.Held.{day_of};
ghost use Rattle.processor.specs.Lawful.{FewFrames, FewIds, FewPosted, FewTaken, SmallCenters, SmallSheets, SoundCenters, SoundSheets};

use crate::floor::Floor;

#[derive(Drop)]
pub(crate) struct Day<'a> {
    floor: Floor<'a>,
    ghost frames: { FewFrames (day_of floor) },
    ghost ids: { FewIds (day_of floor) },
    ghost centers: { SmallCenters (day_of floor) },
    ghost sound_centers: { SoundCenters (day_of floor) },
    ghost posted: { FewPosted (day_of floor) },
    ghost serial: { FewTaken (day_of floor) },
    ghost sheets: { SmallSheets (day_of floor) },
    ghost sound_sheets: { SoundSheets (day_of floor) },
}

pub(crate) mod calls;
