// The numbers of a sheet to write, one behind the other: edition, date, movement, batches, sales, gross, discount, net; in version 2 those from sales on are
// the settled's, and the split and the forecast's four follow.
ghost use Rattle.std.specs.Prelude.{◌≡◌, ◌≤◌};
ghost use Rattle.cases.specs.Layout.{HasBytes};
ghost use Rattle.sheet_cases.specs.Numbers.{size_of, number_in, heading_in, totals_from, sheet_in};

use cases::cursor;
use cases::cursor::LENGTH_BYTES;
use cases::layout::Layout;
use day_sheet::layout::Version;
use sheet_numbers::sheet::{Heading, Sheet};
use totals::amounts::{Amounts, Totals};
use totals::two_sets::TwoSets;

// How many bytes each takes.
const NUMBER_BYTES: u64 = 8;

// The first number of the settled's totals, the split, and the first of the forecast's; numbers are counted from 0.
const SETTLED: u64 = 4;

const SPLIT: u64 = 8;

const FORECAST: u64 = 9;

// How many bytes all numbers of a version take.
fn size_of(version: Version) -> u64
    ensures { result ≡ size_of version }
{
    match version {
        Version::One => 8 * NUMBER_BYTES,
        Version::Two => 13 * NUMBER_BYTES,
    }
}

// The size of an output, and all numbers of a version.
pub fn layout_of(version: Version) -> Layout
    ensures { HasBytes result.size }
{
    Layout {
        widths: [0, LENGTH_BYTES],
        size: Some(size_of(version)),
    }
}

// One of the numbers.
#[tactic(auto, unfolding(crate::specs::Numbers::number_in))]
fn number_in(numbers: &[u8], place: u64) -> u64
    requires { place ≤ 12 }
    ensures { result ≡ number_in numbers.now place }
{
    let at = place * NUMBER_BYTES;
    let number = cursor::number_at(numbers, at as usize, NUMBER_BYTES);
    number.value
}

#[tactic(auto, unfolding(crate::specs::Numbers::heading_in))]
fn heading_in(numbers: &[u8]) -> Heading
    ensures { result ≡ heading_in numbers.now }
{
    Heading {
        edition: number_in(numbers, 0),
        date: number_in(numbers, 1),
        movement: number_in(numbers, 2),
        batches: number_in(numbers, 3),
    }
}

// The totals whose four numbers begin with this one. (Numbers as bytes of a case; `day_sheet::row::totals_from` takes them from a row.)
#[tactic(auto, unfolding(crate::specs::Numbers::totals_from))]
fn totals_from(numbers: &[u8], first: u64) -> Totals
    requires { first ≤ 9 }
    ensures { result ≡ totals_from numbers.now first }
{
    Totals {
        sales: number_in(numbers, first),
        amounts: Amounts {
            gross: number_in(numbers, first + 1),
            discount: number_in(numbers, first + 2),
            net: number_in(numbers, first + 3),
        },
    }
}

// The sheet of these numbers.
pub fn sheet_in(version: Version, numbers: &[u8]) -> Sheet
    ensures { result ≡ sheet_in version numbers.now }
{
    let heading = heading_in(numbers);
    let totals = totals_from(numbers, SETTLED);
    match version {
        Version::One => Sheet::Version1 { heading, totals },
        Version::Two => Sheet::Version2 {
            heading,
            split: number_in(numbers, SPLIT),
            sets: TwoSets {
                forecast: totals_from(numbers, FORECAST),
                settled: totals,
            },
        },
    }
}
