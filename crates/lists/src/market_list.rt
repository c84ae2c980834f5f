// The list of a practice day: its securities by their symbols, and its lines by their originators.
ghost use Rattle.std.specs.Prelude.{◌≡◌, true};
ghost use Rattle.lists.specs.Market.{OriginatorList, SymbolList, none_has};

use arrayvec::ArrayVec;
use text::symbol::Symbol;

pub mod calls;

#[derive(Drop)]
pub struct MarketList {
    symbols: ArrayVec<Symbol, 256>,
    originators: ArrayVec<[u8; 2], 16>,
    ghost listed: { SymbolList symbols.items },
    ghost connected: { OriginatorList originators.items },
    ghost plain: { (none_has 44 symbols.items ≡ true) × (none_has 44 originators.items ≡ true) },
}
