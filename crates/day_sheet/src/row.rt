// A sheet's numbers in the order of the layout, there and back.
ghost use Rattle.std.specs.Prelude.{◌≡◌, get_or};
ghost use Rattle.day_sheet.specs.Sheet.{row_of, sheet_row, totals_from, sheet_of};

use crate::layout;
use crate::layout::{PLACES, Version};
use sheet_numbers::sheet::{Heading, Sheet};
use totals::amounts::{Amounts, Totals};
use totals::two_sets::TwoSets;

// All numbers of the longer table, in its order.
fn row_of(
    version: u64,
    heading: Heading,
    first: Totals,
    split: u64,
    second: Totals,
) -> [u64; PLACES]
    ensures { result ≡ row_of version heading first split second }
{
    [
        version,
        heading.edition,
        heading.date,
        heading.movement,
        heading.batches,
        first.sales,
        first.amounts.gross,
        first.amounts.discount,
        first.amounts.net,
        split,
        second.sales,
        second.amounts.gross,
        second.amounts.discount,
        second.amounts.net,
    ]
}

// A sheet's row: its numbers in the order of the layout, with zeros where version 1 has none.
#[tactic(auto, unfolding(crate::specs::Sheet::sheet_row))]
pub fn row(sheet: Sheet) -> [u64; PLACES]
    ensures { result ≡ sheet_row sheet }
{
    match sheet {
        Sheet::Version1 { heading, totals } => row_of(1, heading, totals, 0, Totals::none()),
        Sheet::Version2 {
            heading,
            split,
            sets,
        } => row_of(2, heading, sets.settled, split, sets.forecast),
    }
}

// The number at a place of a row; 0 where it ends before.
fn number_at(numbers: &[u64], place: usize) -> u64
    ensures { result ≡ get_or numbers.now place 0 }
{
    numbers.get(place).copied().unwrap_or(0)
}

// The totals whose four numbers begin with this one of a row.
pub fn totals_from(first: usize, numbers: &[u64]) -> Totals
    ensures { result ≡ totals_from first numbers.now }
{
    Totals {
        sales: number_at(numbers, first),
        amounts: Amounts {
            gross: number_at(numbers, first.saturating_add(1)),
            discount: number_at(numbers, first.saturating_add(2)),
            net: number_at(numbers, first.saturating_add(3)),
        },
    }
}

// The sheet of these numbers.
pub fn sheet_of(version: Version, numbers: [u64; PLACES]) -> Sheet
    ensures { result ≡ sheet_of version numbers }
{
    let heading = Heading {
        edition: numbers[layout::EDITION],
        date: numbers[layout::DATE],
        movement: numbers[layout::MOVEMENT],
        batches: numbers[layout::BATCHES],
    };
    match version {
        Version::One => Sheet::Version1 {
            heading,
            totals: totals_from(layout::SETTLED, &numbers),
        },
        Version::Two => Sheet::Version2 {
            heading,
            split: numbers[layout::SPLIT],
            sets: TwoSets {
                forecast: totals_from(layout::FORECAST, &numbers),
                settled: totals_from(layout::SETTLED, &numbers),
            },
        },
    }
}
