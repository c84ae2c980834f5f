// The statistics of a security (high, low, last, volume) that a securities information processor keeps of trade reports, for
// all market centers together and for each of them alone.
#![tactic(auto)]

pub mod entry;
pub mod plain_sheet;
pub mod record;
pub mod sale;
pub mod sheet;
