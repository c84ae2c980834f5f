// Reports entered on sheets that are kept as plain records.
#![tactic(auto)]

pub mod plain_sheet;
