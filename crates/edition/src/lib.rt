// The edition: which are known, and what a word states, any number of decimal digits.
#![tactic(auto)]

ghost use Rattle.std.specs.Prelude.{◌≡◌, true, min};
ghost use Rattle.text.specs.Alphabet.{holds_only};
ghost use Rattle.text.specs.Number.{value_of};
ghost use Rattle.totals.specs.Sum.{top};
ghost use Rattle.edition.specs.Edition.{edition_of};

pub mod known;

use text::alphabet::Alphabet;

// The value of a row of digits, or the largest number of 64 bits where it is larger still.
fn capped_value(digits: &[u8]) -> u64
    requires { holds_only Alphabet.Digits digits.now ≡ true }
    ensures { result ≡ min (value_of digits.now) top }
{
    let mut value: u64 = 0;
    for digit in digits {
        value = value
            .saturating_mul(10)
            .saturating_add((*digit - b'0') as u64);
    }
    value
}

// The edition that a word states: none where it has no digit at all, or another byte among them.
pub fn edition_of(word: &[u8]) -> Option<u64>
    ensures { result ≡ edition_of word.now }
{
    if word.is_empty() || !text::alphabet::holds_only(Alphabet::Digits, word) {
        return None;
    }
    Some(capped_value(word))
}
