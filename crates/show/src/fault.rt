// What is told of a day sheet's fault.
ghost use Rattle.std.specs.Prelude.{◌≡◌, Some};
ghost use Rattle.show.specs.FaultText.{fault_text};

use crate::layer::layer_name;
use sheets::fault::Fault;
use std::fmt;

#[derive(Clone, Copy)]
pub struct FaultText(pub Fault);

impl fmt::Display for FaultText {
    ghost output = { λ shown. Some (fault_text shown.0) };

    fn fmt<W: fmt::Write>(&self, f: &mut fmt::Formatter<W>) -> fmt::Result {
        let cause = u16::from(self.0.cause);
        let layer = layer_name(self.0.layer);
        let line = self.0.line;
        let field = self.0.field;
        write!(f, "{cause}, {layer} layer, line {line}, field {field}")
    }
}
