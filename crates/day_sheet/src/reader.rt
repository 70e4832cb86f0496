// Reading a day sheet.
ghost use Rattle.std.specs.Prelude.{◌≡◌, ◌-◌, ◌++◌, length, replicate};
ghost use Rattle.day_sheet.specs.Version.{places_of, width_of};
ghost use Rattle.day_sheet.specs.Reading.{is_marked, numbers_in, read_as, read_of};

use crate::layout::{PLACES, Version};
use crate::{layout, places, row};
use refusal::{Answer, Cause, Refusal};
use sheet_numbers::sheet::Sheet;

// Whether the bytes are as many as a sheet has, with its mark in front.
fn is_marked(bytes: &[u8]) -> bool
    ensures { result ≡ is_marked bytes.now }
{
    let wide = bytes.len() == layout::WIDTH_1 || bytes.len() == layout::WIDTH_2;
    wide && text::literal::equals(&bytes[..layout::MARK_WIDTH], b"DSH")
}

// The numbers of a version's places; behind them zeros.
#[tactic(auto, using(crate::proofs::Readings::few_places, crate::proofs::Readings::prefix_length, crate::proofs::Readings::prefix_filled))]
fn numbers_in(version: Version, bytes: &[u8]) -> [u64; PLACES]
    requires { length bytes.now ≡ width_of version }
    ensures { result ≡ numbers_in version bytes.now ++ replicate (14 - places_of version) 0 }
{
    let mut numbers = [0u64; PLACES];
    places::read_numbers(bytes, &mut numbers[..version.places()]);
    numbers
}

// Reads the numbers of as many bytes as this version has: 16, 17, or the sheet.
#[tactic(auto, using(crate::proofs::Readings::version_in, crate::proofs::Readings::sheet_in_lem, crate::proofs::Readings::digits_in), unfolding(crate::specs::Reading::read_as))]
fn read_as(version: Version, bytes: &[u8]) -> Answer<Sheet>
    requires { length bytes.now ≡ width_of version }
    ensures { result ≡ read_as version bytes.now }
{
    let numbers = numbers_in(version, bytes);
    if numbers[0] != version.number() {
        return Err(Refusal::nowhere(Cause::SheetVersionUnknown));
    }
    let sheet = row::sheet_of(version, numbers);
    if places::holds_digits(bytes, version.places()) && sheet.is_allowed() {
        return Ok(sheet);
    }
    Err(Refusal::nowhere(Cause::SheetNumbersNotAllowed))
}

// Reads a sheet's bytes: 15, 16, 17, or the numbers.
#[tactic(auto, using(crate::proofs::Readings::marked_width), unfolding(crate::specs::Reading::read_of))]
pub fn read(bytes: &[u8]) -> Answer<Sheet>
    ensures { result ≡ read_of bytes.now }
{
    if !is_marked(bytes) {
        return Err(Refusal::nowhere(Cause::NotADaySheet));
    }
    if bytes.len() == layout::WIDTH_1 {
        return read_as(Version::One, bytes);
    }
    read_as(Version::Two, bytes)
}
