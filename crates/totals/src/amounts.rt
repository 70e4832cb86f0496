// The amounts of one sale, and totals over sales, in centavos.
ghost use Rattle.std.specs.Prelude.{◌≡◌};
ghost use Rattle.totals.specs.Amounts.{agreeing, added_amounts, no_totals, one_sale, added_totals};

use crate::sum;

#[derive(Clone, Copy, Default)]
pub struct Amounts {
    pub gross: u64,
    pub discount: u64,
    pub net: u64,
}

#[derive(Clone, Copy, Default)]
pub struct Totals {
    pub sales: u64,
    pub amounts: Amounts,
}

impl Amounts {
    // Whether gross = discount + net.
    pub fn agree(self) -> bool
        ensures { result ≡ agreeing self }
    {
        sum::checked(self.discount, self.net) == Some(self.gross)
    }

    // Both, each amount at most the largest number of 64 bits.
    pub fn added(self, other: Amounts) -> Amounts
        ensures { result ≡ added_amounts self other }
    {
        Amounts {
            gross: sum::added(self.gross, other.gross),
            discount: sum::added(self.discount, other.discount),
            net: sum::added(self.net, other.net),
        }
    }
}

impl Totals {
    // No sale.
    pub fn none() -> Totals
        ensures { result ≡ no_totals }
    {
        Totals::default()
    }

    // One sale of these amounts.
    pub fn of_sale(amounts: Amounts) -> Totals
        ensures { result ≡ one_sale amounts }
    {
        Totals { sales: 1, amounts }
    }

    // Both, each number at most the largest of 64 bits.
    pub fn added(self, other: Totals) -> Totals
        ensures { result ≡ added_totals self other }
    {
        Totals {
            sales: sum::added(self.sales, other.sales),
            amounts: self.amounts.added(other.amounts),
        }
    }
}
