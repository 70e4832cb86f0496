// Numbers as a sheet holds them: in bytes, the high byte first, or as ASCII digits.
ghost use Rattle.std.specs.Prelude.{◌≡◌, ◌+◌, ◌*◌, ◌-◌, ◌/◌, ◌%◌, ◌≤◌, ◌<◌, length};
ghost use Rattle.day_sheet.specs.Number.{base, zero_byte, in_base, put_at, value_in, holds_right};

use text::alphabet::Alphabet;

// How a number's digits are written.
#[derive(Clone, Copy)]
pub enum Form {
    Bytes,
    Digits,
}

impl Form {
    // The lowest digit of a number, as the byte that stands for it.
    fn last_digit(self, number: u64) -> u8
        ensures { result ≡ zero_byte self + number % base self }
    {
        match self {
            Form::Bytes => (number % 256) as u8,
            Form::Digits => b'0' + (number % 10) as u8,
        }
    }

    // The number without its lowest digit.
    fn other_digits(self, number: u64) -> u64
        ensures { result ≡ number / base self }
    {
        match self {
            Form::Bytes => number / 256,
            Form::Digits => number / 10,
        }
    }

    // Fills a part with a number, the highest digit first; what is too large for the part is cut off.
    pub fn put(self, number: u64, part: &mut [u8])
        ensures { part.new ≡ in_base (base self) (zero_byte self) (length part.old) number }
    {
        // By index: behind `iter_mut().rev()` the proof has the bytes lent one by one, and no name for the part that they make.
        let mut left = number;
        for i in (0..part.len()).rev() {
            part[i] = self.last_digit(left);
            left = self.other_digits(left);
        }
    }

    // Fills the places from `from` up to `to`, and no other.
    pub(crate) fn put_at(self, number: u64, from: usize, to: usize, out: &mut [u8])
        requires { (from ≤ to) × (to ≤ length out.old) }
        ensures { out.new ≡ put_at (base self) (zero_byte self) number from to out.old }
    {
        self.put(number, &mut out[from..to]);
    }

    // A number with one digit more; a byte below the digits counts as 0.
    fn with_digit(self, number: u64, byte: u8) -> u64
        requires { number < 72057594037927936 }
        ensures { result ≡ number * base self + (byte - zero_byte self) }
    {
        match self {
            Form::Bytes => number * 256 + byte as u64,
            Form::Digits => number * 10 + byte.saturating_sub(b'0') as u64,
        }
    }

    // The number that at most eight bytes hold.
    #[tactic(auto, using(crate::proofs::Digits::room, crate::proofs::Digits::byte_more, crate::proofs::Digits::digit_more, crate::proofs::Digits::digits_end))]
    pub(crate) fn value(self, part: &[u8]) -> u64
        requires { length part.now ≤ 8 }
        ensures { result ≡ value_in (base self) (zero_byte self) 0 part.now }
    {
        let mut value: u64 = 0;
        for &byte in part {
            value = self.with_digit(value, byte);
        }
        value
    }

    // Whether every byte may stand there: digits alone, where the form has them.
    pub(crate) fn holds(self, part: &[u8]) -> bool
        ensures { result ≡ holds_right self part.now }
    {
        match self {
            Form::Bytes => true,
            Form::Digits => text::alphabet::holds_only(Alphabet::Digits, part),
        }
    }
}
