// Leap years and the lengths of months, by the Gregorian rule as it is written.
ghost use Rattle.std.specs.Prelude.{◌≡◌};
ghost use Rattle.calendar.specs.Month.{leap_year, february_of, days_in};

// The months that the rule names.
const FEBRUARY: u64 = 2;

const APRIL: u64 = 4;

const JUNE: u64 = 6;

const SEPTEMBER: u64 = 9;

const NOVEMBER: u64 = 11;

// Whether a year is a leap year: one that 4 divides, but not 100, unless 400.
#[tactic(auto, using(std::proofs::lemmas::Bool::Decides::nat_tests))]
pub fn leap(year: u64) -> bool
    ensures { result ≡ leap_year year }
{
    year % 4 == 0 && (year % 100 != 0 || year % 400 == 0)
}

// The days of February: 28, or 29 in a leap year.
fn february_of(year: u64) -> u64
    ensures { result ≡ february_of year }
{
    if leap(year) { 29 } else { 28 }
}

// How many days a month has; none where there is no such month.
#[tactic(auto, using(std::proofs::lemmas::Bool::Decides::nat_tests), unfolding(crate::specs::Month::days_in))]
pub fn days_in(year: u64, month: u64) -> u64
    ensures { result ≡ days_in year month }
{
    match month {
        APRIL | JUNE | SEPTEMBER | NOVEMBER => 30,
        FEBRUARY => february_of(year),
        // The others.
        1..=12 => 31,
        _ => 0,
    }
}
