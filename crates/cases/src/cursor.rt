// Reading cases out of a buffer, at a place: how many bytes stand before it. Numbers are unsigned, high byte first.
ghost use Rattle.std.specs.Prelude.{◌≡◌};
ghost use Rattle.totals.specs.Sum.{capped};
ghost use Rattle.cases.specs.Cursor.{PartAt, high_first, NumberAt};

use crate::print;
use text::part::part_of;
use totals::sum::added;

// A number that stands in a buffer, and the place behind it, which lies behind the buffer where the number is cut short.
#[derive(Clone, Copy)]
pub struct Number {
    pub value: u64,
    pub behind: usize,
}

// How many bytes an edition takes.
pub const EDITION_BYTES: u64 = 1;

// How many bytes a length takes.
pub const LENGTH_BYTES: u64 = 4;

// 2^56: what is left of a number that one more byte has room behind.
const ROOM_FOR_A_BYTE: u64 = 72_057_594_037_927_936;

// The number of a row of bytes; of more than eight, that of the last eight.
#[tactic(auto, using(crate::proofs::Numbers::byte_more, crate::proofs::Numbers::bytes_end))]
fn high_first(bytes: &[u8]) -> u64
    ensures { result ≡ high_first 0 bytes.now }
{
    let mut number: u64 = 0;
    for byte in bytes {
        number = number % ROOM_FOR_A_BYTE * 256 + *byte as u64;
    }
    number
}

// So many bytes from a place on, as far as there are any.
#[tactic(auto, unfolding(crate::specs::Cursor::PartAt))]
fn bytes_at(cases: &[u8], at: usize, size: u64) -> &[u8]
    ensures { PartAt cases.entry at size result }
{
    let first = added(at as u64, 1) as usize;
    let last = added(at as u64, size) as usize;
    part_of(first, last, cases)
}

// The number of so many bytes that stands at a place.
#[tactic(auto, unfolding(crate::specs::Cursor::PartAt))]
pub fn number_at(cases: &[u8], at: usize, size: u64) -> Number
    ensures { NumberAt cases.now at size result }
{
    Number {
        value: high_first(bytes_at(cases, at, size)),
        behind: added(at as u64, size) as usize,
    }
}

impl Number {
    // The part whose length this is: it stands behind it.
    pub fn part(self, cases: &[u8]) -> &[u8]
        ensures { PartAt cases.entry self.behind self.value result }
    {
        bytes_at(cases, self.behind, self.value)
    }

    // The place behind that part.
    pub fn behind_part(self) -> usize
        ensures { result ≡ capped self.behind self.value }
    {
        added(self.behind as u64, self.value) as usize
    }
}

// Says so where the last case does not end where the buffer does.
pub fn print_end(cases: &[u8], at: usize) {
    if at != cases.len() {
        print::text(b"a case is cut short\n");
    }
}
