// What a part says when it is read as a day or as a time.
ghost use Rattle.std.specs.Prelude.{◌≡◌, ◌≤◌};
ghost use Rattle.refusal.specs.Rules.{first_broken};
ghost use Rattle.calendar.specs.When.{written, real_one, when_rules};

use refusal::{Cause, Fault};
use text::number::{NoNumber, number_of};

// Why a part names no day and no time.
#[derive(Clone, Copy)]
pub enum Unreadable {
    // Some byte is no digit.
    NotDigits,
    // Digits, but too few, too many, or of no such day or time.
    NoSuch,
}

// What a part says when it is read: the day as the number AAAAMMDD, or the time as the number HHMMSS.
pub type When = Result<u64, Unreadable>;

// The fault of a field that should name a day or a time.
#[tactic(auto, unfolding(refusal::specs::Rules::first_broken, crate::specs::When::when_rules))]
pub fn fault_of(when: When, column: u64) -> Result<(), Fault>
    ensures { result ≡ first_broken (when_rules column when) }
{
    let cause = match when {
        Ok(_) => return Ok(()),
        Err(Unreadable::NotDigits) => Cause::ByteNotAllowed,
        Err(Unreadable::NoSuch) => Cause::ValueNotAllowed,
    };
    Err(Fault { cause, column })
}

// The number that a part of exactly `width` digits writes, where so many digits are read at all.
pub(crate) fn written_in(width: usize, part: &[u8]) -> When
    requires { width ≤ 18 }
    ensures { result ≡ written width part.now }
{
    match number_of(part) {
        Ok(number) if part.len() == width => Ok(number),
        Ok(_) | Err(NoNumber::TooLong) => Err(Unreadable::NoSuch),
        Err(NoNumber::NotDigits) => Err(Unreadable::NotDigits),
    }
}

// A number that was written, where it is one of those that there are.
pub(crate) fn one_of(number: u64, real: bool) -> When
    ensures { result ≡ real_one real number }
{
    if real {
        Ok(number)
    } else {
        Err(Unreadable::NoSuch)
    }
}
