// Day sheets. A practice day plays, for one business day, the processor that consolidates a market's trade reports; a day sheet is
// one of the two texts that it is set up from: the list sheet names its securities and lines, the book sheet the codes that its
// reports may carry. This crate reads a sheet of any kind of row into a caller's table, in three layers: the lines of a text, the
// fields of a line, and the rows of a sheet.
#![tactic(auto)]

pub mod bucket;
pub mod cause;
pub mod fault;
pub mod field_layer;
pub mod line_layer;
pub mod reader;
pub mod row;
