// The index of a security in the market list. The list's symbols ascend, so a search halves what is left of it at each step.
ghost use Rattle.std.specs.Prelude.{◌≡◌, ◌<◌, true, length, None, IfOk, IfSome};
ghost use Rattle.std.specs.Result.{result_ok};
ghost use Rattle.lists.specs.Listed.{securities_of};
ghost use Rattle.lists.specs.Market.{ascend_from};
ghost use Rattle.search.specs.Place.{place_of};

use lists::market_list::MarketList;
use text::symbol::Symbol;

// The index of a symbol among ascending ones; where it is not among them, the index at which it would stand.
fn halve(symbols: &[Symbol], symbol: &[u8]) -> Result<usize, usize>
    ensures place { ascend_from None symbols.now ≡ true → result_ok result ≡ place_of symbols.now symbol.now }
    ensures within { IfOk result (λ security. security < length symbols.now) }
{
    symbols.binary_search_by(|other| other.as_slice().cmp(symbol))
}

// The index of the security with a symbol, all of whose bytes count; none where the list has no such security.
pub fn find(market: &MarketList, symbol: &[u8]) -> Option<usize>
    ensures place { result ≡ place_of (securities_of market.now) symbol.now }
    ensures within { IfSome result (λ security. security < length (securities_of market.now)) }
{
    halve(market.symbols(), symbol).ok()
}
