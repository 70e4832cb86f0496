// Two sets of totals: of the sales that are forecast, and of those that are settled.
ghost use Rattle.std.specs.Prelude.{◌≡◌};
ghost use Rattle.totals.specs.TwoSets.{no_sets, one_sale_more, both_sets};

use crate::amounts::Totals;

#[derive(Clone, Copy, Default)]
pub struct TwoSets {
    pub forecast: Totals,
    pub settled: Totals,
}

impl TwoSets {
    // No sale in either set.
    pub fn none() -> TwoSets
        ensures { result ≡ no_sets }
    {
        TwoSets::default()
    }

    // One sale more, in its own set.
    pub fn one_more(self, forecast: bool, sale: Totals) -> TwoSets
        ensures { result ≡ one_sale_more forecast sale self }
    {
        if forecast {
            TwoSets {
                forecast: self.forecast.added(sale),
                settled: self.settled,
            }
        } else {
            TwoSets {
                forecast: self.forecast,
                settled: self.settled.added(sale),
            }
        }
    }

    // The totals of all sales: both sets added.
    pub fn both(self) -> Totals
        ensures { result ≡ both_sets self }
    {
        self.forecast.added(self.settled)
    }
}
