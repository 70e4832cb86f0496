// The number that a part's digits write.
ghost use Rattle.std.specs.Prelude.{◌≡◌, true, ◌≤◌, length};
ghost use Rattle.text.specs.Alphabet.{holds_only};
ghost use Rattle.text.specs.Number.{value_of, number_of, plain_number};
ghost use Rattle.text.specs.Weighed.{value_if_digits};

use crate::alphabet::Alphabet;

// Why a part is read as no number.
#[derive(Clone, Copy)]
pub enum NoNumber {
    NotDigits,
    // Digits, and more of them than are read.
    TooLong,
}

// The number that was read; 0 where there is none.
pub fn or_zero(number: Result<u64, NoNumber>) -> u64
    ensures { result ≡ plain_number number }
{
    number.unwrap_or(0)
}

// The longest number that is read: any 18 digits stay below 2^64.
const MOST_DIGITS: usize = 18;

// The number that the digits write; no digit at all writes 0.
pub fn number_of(part: &[u8]) -> Result<u64, NoNumber>
    ensures { result ≡ number_of part.now }
{
    if !crate::alphabet::holds_only(Alphabet::Digits, part) {
        return Err(NoNumber::NotDigits);
    }
    if MOST_DIGITS < part.len() {
        return Err(NoNumber::TooLong);
    }
    Ok(value_of(part))
}

// The value of a row of digits, of which there are few enough.
fn value_of(digits: &[u8]) -> u64
    requires { (holds_only Alphabet.Digits digits.now ≡ true) × (length digits.now ≤ 18) }
    ensures { result ≡ value_of digits.now }
{
    let mut value: u64 = 0;
    for digit in digits {
        value = value * 10 + u64::from(*digit - b'0');
    }
    value
}

// The longest part that is taken for digits: any 17 bytes stay below 2^64.
const MOST_TAKEN: usize = 17;

// The value that a part writes if it is digits, with no look at whether it is; 0 for a longer part.
pub fn value_if_digits(part: &[u8]) -> u64
    ensures { result ≡ value_if_digits part.now }
{
    if MOST_TAKEN < part.len() {
        return 0;
    }
    let mut value: u64 = 0;
    let mut zeros: u64 = 0;
    for byte in part {
        value = value * 10 + u64::from(*byte);
        zeros = zeros * 10 + b'0' as u64;
    }
    value.saturating_sub(zeros)
}
