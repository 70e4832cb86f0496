// Days, as the number AAAAMMDD and as the files write them.
ghost use Rattle.std.specs.Prelude.{◌≡◌, ◌<◌, ◌^◌};
ghost use Rattle.calendar.specs.Day.{is_day, turned, year_first, day_first};

use crate::month::days_in;
use crate::when::{When, one_of, written_in};

// AAAAMMDD and DDMMAAAA have eight digits.
const WIDTH: usize = 8;

// Whether a number AAAAMMDD is a real day from 20000101 to 20991231.
#[tactic(auto, using(std::proofs::lemmas::Bool::Decides::nat_tests), unfolding(crate::specs::Day::is_day))]
pub fn is_day(number: u64) -> bool
    ensures { result ≡ is_day number }
{
    let year = number / 10_000;
    let day = number % 100;
    matches!(year, 2000..=2099) && 1 <= day && day <= days_in(year, number / 100 % 100)
}

// The number DDMMAAAA as the number AAAAMMDD.
fn turned(number: u64) -> u64
    ensures { result ≡ turned number }
{
    number % 10_000 * 10_000 + number / 10_000 % 100 * 100 + number / 1_000_000
}

// A part as AAAAMMDD.
pub fn year_first(part: &[u8]) -> When
    ensures { result ≡ year_first part.now }
{
    let day = written_in(WIDTH, part)?;
    one_of(day, is_day(day))
}

// A part as DDMMAAAA.
pub fn day_first(part: &[u8]) -> When
    ensures { result ≡ day_first part.now }
{
    let day = turned(written_in(WIDTH, part)?);
    one_of(day, is_day(day))
}
