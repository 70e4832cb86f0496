// Day sheets: read, written and converted.
ghost use Rattle.std.specs.Prelude.{◌≡◌, ◌∷◌, ℕ, ◌≤◌, length};
ghost use Rattle.day_sheet.specs.declared.layout.Version.TheVariants.{One, Two};
ghost use Rattle.day_sheet.specs.Sheet.{sheet_of};
ghost use Rattle.day_sheet.specs.Reading.{read_of};
ghost use Rattle.day_sheet.specs.Writing.{Writes};
ghost use Rattle.day_sheet.specs.Conversion.{Converts};
ghost use Rattle.answer_rows.specs.Sheet.{sheet_numbers, written_numbers};
ghost use Rattle.c_files.specs.Told.{Told};

use answer_rows::sheet::{SHEET_NUMBERS, WRITTEN_NUMBERS, sheet_row, written_row};
use day_sheet::layout::{PLACES, Version};

// How many numbers a sheet of each version has behind its version.
pub const NUMBERS_1: usize = 8;

pub const NUMBERS_2: usize = 13;

// The row of a day sheet of either version.
#[unsafe(no_mangle)]
pub extern "C" fn lossivurn_sheet_read(bytes: &[u8], row: &mut [u64; SHEET_NUMBERS])
    ensures { row.new ≡ sheet_numbers (read_of bytes.now) }
{
    *row = sheet_row(day_sheet::reader::read(bytes));
}

// Writes a new day sheet of a version, whose numbers these are in the layout's order, behind the version: the row of the answer. (Inlined, so that each call
// knows how many numbers it moves: the archive for C then needs no `memcpy`.)
#[inline(always)]
fn write(version: Version, numbers: &[u64], out: &mut [u8]) -> [u64; WRITTEN_NUMBERS]
    requires { length numbers.now ≤ 13 }
    ensures { (number : ℕ) → Told written_numbers (Writes (sheet_of version (number ∷ numbers.now)) out.old) result out.new }
{
    let mut places = [0; PLACES];
    places[1..=numbers.len()].copy_from_slice(numbers);
    let sheet = day_sheet::row::sheet_of(version, places);
    written_row(day_sheet::writer::write(sheet, out))
}

// Writes a new day sheet of version 1, whose numbers these are in the layout's order, behind the version.
#[unsafe(no_mangle)]
pub extern "C" fn lossivurn_sheet_write_1(
    numbers: &[u64; NUMBERS_1],
    out: &mut [u8],
    row: &mut [u64; WRITTEN_NUMBERS],
)
    ensures { Told written_numbers (Writes (sheet_of One (1 ∷ numbers.now)) out.old) row.new out.new }
{
    *row = write(Version::One, numbers, out);
}

// Writes a new day sheet of version 2.
#[unsafe(no_mangle)]
pub extern "C" fn lossivurn_sheet_write_2(
    numbers: &[u64; NUMBERS_2],
    out: &mut [u8],
    row: &mut [u64; WRITTEN_NUMBERS],
)
    ensures { Told written_numbers (Writes (sheet_of Two (2 ∷ numbers.now)) out.old) row.new out.new }
{
    *row = write(Version::Two, numbers, out);
}

// Writes a sheet in the other version into the first bytes of the output.
#[unsafe(no_mangle)]
pub extern "C" fn lossivurn_sheet_convert(
    bytes: &[u8],
    out: &mut [u8],
    row: &mut [u64; WRITTEN_NUMBERS],
)
    ensures { Told written_numbers (Converts bytes.now out.old) row.new out.new }
{
    *row = written_row(day_sheet::converter::convert(bytes, out));
}
