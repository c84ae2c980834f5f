// A range of securities by their symbols.
ghost use Rattle.std.specs.Prelude.{◌≡◌};
ghost use Rattle.marks.specs.Range.{in_range};

use text::symbol::Symbol;

// The symbols from the first to the last, both included, in the order of their bytes. Where the first stands after the last
// there are none.
#[derive(Clone, Copy, PartialEq, Eq, Debug)]
pub struct SymbolRange {
    pub first: Symbol,
    pub last: Symbol,
}

impl SymbolRange {
    #[tactic(auto, using(crate::proofs::Ranges::contained))]
    pub fn reaches(&self, symbol: &Symbol) -> bool
        ensures { result ≡ in_range self.now symbol.now }
    {
        (self.first..=self.last).contains(symbol)
    }
}
