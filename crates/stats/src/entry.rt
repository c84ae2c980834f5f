// What one sale enters on a sheet.
ghost use Rattle.std.specs.Prelude.{◌≡◌};
ghost use Rattle.stats.specs.Entries.{center_entry, consolidated_entry, spanned_by, added_by};
ghost use Rattle.stats.specs.declared.entry.Entry.{Entry};

use crate::sale::{LastSale, LineSale, Sale};
use conditions::condition::{counts, effects};
use conditions::matrix::Says;

// What one sale enters on a sheet. `Last` is what that kind of sheet holds of the last sale.
#[derive(Clone, Copy, PartialEq, Eq, Debug)]
pub struct Entry<Last> {
    // the price that the high and the low span, if the condition says Yes to them
    pub spanned: Option<u64>,
    // what the condition says to the last, and what would stand there
    pub says: Says,
    pub last: Last,
    // what is added to the volume: nothing if the condition does not count
    pub adds: u32,
}

// A report that can be entered on the sheets whose last is a `Last`. Not `Into`, whose contract is a relation: the laws add up
// what `enter` makes of each report.
pub trait Enters<Last> {
    ghost enter: { Self → Entry Last };

    fn entry(self) -> Entry<Last>
        ensures { result ≡ enter self };
}

fn spanned_price(says: Says, price: u64) -> Option<u64>
    ensures { result ≡ spanned_by says price }
{
    (says == Says::Yes).then_some(price)
}

fn added(sale: Sale) -> u32
    ensures { result ≡ added_by sale }
{
    if counts(sale.condition) {
        sale.volume
    } else {
        0
    }
}

// A sale is entered on its market center's sheet. The two impls stay apart: one function of their columns would have four
// arguments by place, and here each stands beside its field.
impl Enters<u64> for Sale {
    ghost enter = { center_entry };

    fn entry(self) -> Entry<u64> {
        let said = effects(self.condition);
        Entry {
            spanned: spanned_price(said.center_high_low, self.price),
            says: said.center_last,
            last: self.price,
            adds: added(self),
        }
    }
}

// A line's sale is entered on the consolidated sheet, whose last names the line.
impl Enters<LastSale> for LineSale {
    ghost enter = { consolidated_entry };

    fn entry(self) -> Entry<LastSale> {
        let sale = self.sale;
        let said = effects(sale.condition);
        Entry {
            spanned: spanned_price(said.consolidated_high_low, sale.price),
            says: said.consolidated_last,
            last: LastSale {
                price: sale.price,
                line: self.line,
            },
            adds: added(sale),
        }
    }
}
