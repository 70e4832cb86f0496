// Where a sheet's numbers stand: one table of places, of which version 1 has the first nine and version 2 all.
ghost use Rattle.std.specs.Prelude.{◌≡◌, ◌<◌, get_or};
ghost use Rattle.day_sheet.specs.Layout.{bytes, version2};
ghost use Rattle.day_sheet.specs.Sheet.{version_of};
ghost use Rattle.day_sheet.specs.Version.{number_of, width_of, places_of};

use crate::number::Form;
use sheet_numbers::sheet::Sheet;

// How many bytes a sheet of each version has.
pub const WIDTH_1: usize = 52;

pub const WIDTH_2: usize = 81;

// "DSH" stands in front of the places, as the number that its three bytes hold.
pub const MARK: u64 = 0x44_53_48;

pub const MARK_WIDTH: usize = 3;

// Which number of the table is which, from 0. The version is the first, and behind SETTLED and FORECAST stand sales, gross, discount and net.
pub const EDITION: usize = 1;

pub const DATE: usize = 2;

pub const MOVEMENT: usize = 3;

pub const BATCHES: usize = 4;

pub const SETTLED: usize = 5;

pub const SPLIT: usize = 9;

pub const FORECAST: usize = 10;

// How many numbers the table has; version 1 ends before the split.
pub const PLACES: usize = 14;

#[derive(Clone, Copy)]
pub enum Version {
    One,
    Two,
}

impl Version {
    // The number that a sheet of this version carries.
    pub(crate) fn number(self) -> u64
        ensures { result ≡ number_of self }
    {
        match self {
            Version::One => 1,
            Version::Two => 2,
        }
    }

    // How many bytes a sheet has.
    pub fn width(self) -> usize
        ensures { result ≡ width_of self }
    {
        match self {
            Version::One => WIDTH_1,
            Version::Two => WIDTH_2,
        }
    }

    // How many places of the table it has.
    pub(crate) fn places(self) -> usize
        ensures { result ≡ places_of self }
    {
        match self {
            Version::One => SPLIT,
            Version::Two => PLACES,
        }
    }
}

// A number's place: how many bytes it takes, and in which form.
#[derive(Clone, Copy)]
pub struct Place {
    pub width: usize,
    pub form: Form,
}

// How many bytes each number takes, and in which form: date and movement are ASCII digits. (A `const` would be made anew at each look.)
static TABLE: [(usize, Form); PLACES] = [
    (2, Form::Bytes),
    (1, Form::Bytes),
    (8, Form::Digits),
    (6, Form::Digits),
    (4, Form::Bytes),
    (4, Form::Bytes),
    (8, Form::Bytes),
    (8, Form::Bytes),
    (8, Form::Bytes),
    (1, Form::Bytes),
    (4, Form::Bytes),
    (8, Form::Bytes),
    (8, Form::Bytes),
    (8, Form::Bytes),
];

// The place of a number, from 0.
#[tactic(auto, using(crate::proofs::NextPlace::by_table))]
pub(crate) fn place_of(number: usize) -> Place
    requires { number < 14 }
    ensures { result ≡ get_or version2 number (bytes 0) }
{
    let (width, form) = TABLE[number];
    Place { width, form }
}

// The version of a sheet.
pub fn version_of(sheet: Sheet) -> Version
    ensures { result ≡ version_of sheet }
{
    match sheet {
        Sheet::Version1 { .. } => Version::One,
        Sheet::Version2 { .. } => Version::Two,
    }
}
