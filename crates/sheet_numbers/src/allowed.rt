// Whether a sheet may hold its numbers.
ghost use Rattle.std.specs.Prelude.{◌≡◌};
ghost use Rattle.sheet_numbers.specs.Allowed.{within_limits, set_allowed, heading_allowed, none_of, split_allowed, sets_allowed, sheet_allowed};

use crate::sheet::{Heading, Sheet};
use totals::amounts::Totals;
use totals::two_sets::TwoSets;

// Counts and the movement are at most this.
const LARGEST_COUNT: u64 = 999_999;

// Totals are below this.
const TOO_LARGE: u64 = 100_000_000_000_000_000;

// Whether the count of sales and each total are within their limits.
#[tactic(auto, unfolding(crate::specs::Allowed::within_limits))]
fn within_limits(totals: Totals) -> bool
    ensures { result ≡ within_limits totals }
{
    let amounts = totals.amounts;
    totals.sales <= LARGEST_COUNT
        && amounts.gross < TOO_LARGE
        && amounts.discount < TOO_LARGE
        && amounts.net < TOO_LARGE
}

// Whether one set of totals is allowed.
#[tactic(auto, unfolding(crate::specs::Allowed::set_allowed))]
fn set_allowed(totals: Totals) -> bool
    ensures { result ≡ set_allowed totals }
{
    within_limits(totals) && totals.amounts.agree()
}

// Whether a heading is allowed.
#[tactic(auto, unfolding(crate::specs::Allowed::heading_allowed))]
fn heading_allowed(heading: Heading) -> bool
    ensures { result ≡ heading_allowed heading }
{
    (1..=2).contains(&heading.edition)
        && calendar::day::is_day(heading.date)
        && heading.movement <= LARGEST_COUNT
        && heading.batches <= LARGEST_COUNT
}

// Whether there is no sale, and nothing that one comes to.
#[tactic(auto, unfolding(crate::specs::Allowed::none_of))]
fn none_of(totals: Totals) -> bool
    ensures { result ≡ none_of totals }
{
    let amounts = totals.amounts;
    totals.sales == 0 && amounts.gross == 0 && amounts.discount == 0 && amounts.net == 0
}

// Whether the split goes with the forecast: known, or not known and nothing forecast.
#[tactic(auto, unfolding(crate::specs::Allowed::split_allowed))]
fn split_allowed(split: u64, forecast: Totals) -> bool
    ensures { result ≡ split_allowed split forecast }
{
    match split {
        0 => none_of(forecast),
        1 => true,
        _ => false,
    }
}

// Whether each set is allowed, and both summed are within the limits.
#[tactic(auto, using(crate::proofs::Allowances::set_within, crate::proofs::Allowances::sum_plain), unfolding(crate::specs::Allowed::sets_allowed))]
fn sets_allowed(sets: TwoSets) -> bool
    ensures { result ≡ sets_allowed sets }
{
    set_allowed(sets.settled) && set_allowed(sets.forecast) && within_limits(sets.both())
}

impl Sheet {
    // Whether a sheet may hold these numbers.
    #[tactic(auto, unfolding(crate::specs::Allowed::sheet_allowed))]
    pub fn is_allowed(self) -> bool
        ensures { result ≡ sheet_allowed self }
    {
        match self {
            Sheet::Version1 { heading, totals } => heading_allowed(heading) && set_allowed(totals),
            Sheet::Version2 {
                heading,
                split,
                sets,
            } => {
                heading_allowed(heading)
                    && sets_allowed(sets)
                    && split_allowed(split, sets.forecast)
            }
        }
    }
}
