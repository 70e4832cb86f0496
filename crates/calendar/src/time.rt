// Times, as the number HHMMSS and as the files write them.
ghost use Rattle.std.specs.Prelude.{◌≡◌};
ghost use Rattle.calendar.specs.Time.{is_time, time_of};

use crate::when::{When, one_of, written_in};

// HHMMSS has six digits.
const WIDTH: usize = 6;

// Whether a number HHMMSS is a time of day.
#[tactic(auto, using(std::proofs::lemmas::Bool::Decides::nat_tests), unfolding(crate::specs::Time::is_time))]
pub fn is_time(number: u64) -> bool
    ensures { result ≡ is_time number }
{
    number < 240_000 && number / 100 % 100 < 60 && number % 100 < 60
}

// A part as HHMMSS.
pub fn time_of(part: &[u8]) -> When
    ensures { result ≡ time_of part.now }
{
    let time = written_in(WIDTH, part)?;
    one_of(time, is_time(time))
}
