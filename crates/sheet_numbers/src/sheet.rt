// The numbers of a day sheet, and the sheet of the other version.
ghost use Rattle.std.specs.Prelude.{◌≡◌};
ghost use Rattle.sheet_numbers.specs.Converted.{converted};
ghost use Rattle.sheet_numbers.specs.Edition.{sheet_edition};

use totals::amounts::Totals;
use totals::two_sets::TwoSets;

// What both versions begin with. The date is the number AAAAMMDD.
#[derive(Clone, Copy)]
pub struct Heading {
    pub edition: u64,
    pub date: u64,
    pub movement: u64,
    pub batches: u64,
}

#[derive(Clone, Copy)]
pub enum Sheet {
    // The totals of all sales.
    Version1 {
        heading: Heading,
        totals: Totals,
    },
    // Those of both sets; the split is 1 if it is known, and 0 if not. It stays a number: a sheet that a caller made up may hold any, which `is_allowed` tells.
    Version2 {
        heading: Heading,
        split: u64,
        sets: TwoSets,
    },
}

impl Sheet {
    // The edition that a sheet carries.
    pub fn edition(self) -> u64
        ensures { result ≡ sheet_edition self }
    {
        match self {
            Sheet::Version1 { heading, .. } => heading.edition,
            Sheet::Version2 { heading, .. } => heading.edition,
        }
    }

    // The sheet in the other version: all sales as settled with the split not known, or both sets added.
    #[tactic(auto, unfolding(crate::specs::Converted::converted))]
    pub fn converted(self) -> Sheet
        ensures { result ≡ converted self }
    {
        match self {
            Sheet::Version1 { heading, totals } => Sheet::Version2 {
                heading,
                split: 0,
                sets: TwoSets {
                    forecast: Totals::none(),
                    settled: totals,
                },
            },
            Sheet::Version2 { heading, sets, .. } => Sheet::Version1 {
                heading,
                totals: sets.both(),
            },
        }
    }
}
