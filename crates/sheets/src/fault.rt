// A sheet is read in three layers, and each has its own faults: the lines of a text, the fields of a line, and the rows of a sheet.
// A layer passes the faults of the one below it on.
ghost use Rattle.std.specs.Prelude.{◌≡◌, ◌+◌, ◌^◌, ◌<◌};
ghost use Rattle.sheets.specs.declared.fault.FieldFault.TheVariants.{Line};
ghost use Rattle.sheets.specs.declared.fault.SheetFault.TheVariants.{Field};
ghost use Rattle.sheets.specs.Told.{cause_of, field_at, layer_of, told_of};

use crate::cause::Cause;

#[derive(Clone, Copy)]
pub enum LineFault {
    Unended,
    TooLong,
}

#[derive(Clone, Copy)]
pub enum FieldFault {
    Line(LineFault),
    UnknownRow,
    FieldCount,
    // The field is counted from 1, the row's letter.
    FieldForm(u8),
}

#[derive(Clone, Copy)]
pub enum SheetFault {
    Field(FieldFault),
    OutOfOrder,
    TooMany,
    Incomplete,
}

impl From<LineFault> for FieldFault {
    ghost from_gives = { λ x y. y ≡ Line x };

    fn from(value: LineFault) -> FieldFault {
        FieldFault::Line(value)
    }
}

impl From<FieldFault> for SheetFault {
    ghost from_gives = { λ x y. y ≡ Field x };

    fn from(value: FieldFault) -> SheetFault {
        SheetFault::Field(value)
    }
}

#[derive(Clone, Copy, PartialEq, Eq, Debug)]
pub enum Layer {
    Line,
    Field,
    Sheet,
}

// What a caller is told of a fault. Lines and fields are counted from 1; the field is 0 where the fault is of no one field: a number
// and no `Option`, since the table of faults gives the 0 as the number that is told.
#[derive(Clone, Copy, PartialEq, Eq, Debug)]
pub struct Fault {
    pub layer: Layer,
    pub cause: Cause,
    pub line: usize,
    pub field: u8,
}

// The three parts of what is told: functions, since as conversions all three would be called `from` at the one place that needs them.
impl SheetFault {
    fn layer(self) -> Layer
        ensures { result ≡ layer_of self }
    {
        match self {
            SheetFault::Field(FieldFault::Line(_)) => Layer::Line,
            SheetFault::Field(_) => Layer::Field,
            _ => Layer::Sheet,
        }
    }

    fn cause(self) -> Cause
        ensures { result ≡ cause_of self }
    {
        match self {
            SheetFault::Field(FieldFault::Line(LineFault::Unended)) => Cause::Unended,
            SheetFault::Field(FieldFault::Line(LineFault::TooLong)) => Cause::TooLong,
            SheetFault::Field(FieldFault::UnknownRow) => Cause::UnknownRow,
            SheetFault::Field(FieldFault::FieldCount) => Cause::FieldCount,
            SheetFault::Field(FieldFault::FieldForm(_)) => Cause::FieldForm,
            SheetFault::OutOfOrder => Cause::OutOfOrder,
            SheetFault::TooMany => Cause::TooMany,
            SheetFault::Incomplete => Cause::Incomplete,
        }
    }

    fn field(self) -> u8
        ensures { result ≡ field_at self }
    {
        match self {
            SheetFault::Field(FieldFault::UnknownRow) => 1,
            SheetFault::Field(FieldFault::FieldForm(number)) => number,
            _ => 0,
        }
    }

    // The fault at the line past so many rows: each line before it is a row.
    pub(crate) fn past_rows(self, rows: usize) -> Fault
        requires { rows + 1 < 2 ^ 64 }
        ensures { result ≡ told_of self (rows + 1) }
    {
        Fault {
            layer: self.layer(),
            cause: self.cause(),
            line: rows + 1,
            field: self.field(),
        }
    }
}
