// The records of the files that are made here: blanks, and numbers at their positions.
ghost use Rattle.std.specs.Prelude.{◌≡◌};
ghost use Rattle.payroll_cases.specs.Record.{with_field, with_own, with_numbers, record_of};
ghost use Rattle.payroll_cases.specs.Made.{made, put_behind};

use day_sheet::number::Form;

// A number that stands behind the first `first` bytes of a record, up to the `last` one.
#[derive(Clone, Copy)]
pub struct Field {
    pub first: usize,
    pub last: usize,
    pub number: u64,
}

// A record of a kind in a batch: its letter, a blank where the kind has none, and up to three numbers.
#[derive(Clone, Copy)]
pub struct Record {
    pub kind: u64,
    pub batch: u64,
    pub letter: u8,
    pub fields: [Option<Field>; 3],
}

// How many bytes a record takes, with its line end.
pub const WIDTH: usize = 242;

// The number of the bank, which every record begins with, before a batch and a kind.
const BANK: u64 = 42_200_000;

// Puts a field's number where the field lies within the bytes.
fn put_field(field: Field, bytes: &mut [u8])
    ensures { bytes.new ≡ with_field field bytes.old }
{
    let first = field.first;
    let last = field.last;
    if first <= last && last <= bytes.len() {
        Form::Digits.put(field.number, &mut bytes[first..last]);
    }
}

// Puts a number of a record's own, where it has one.
fn put_own(field: Option<Field>, bytes: &mut [u8])
    ensures { bytes.new ≡ with_own field bytes.old }
{
    if let Some(own) = field {
        put_field(own, bytes);
    }
}

// Puts the numbers of a record: the bank 1-3, the batch 4-7 and the kind 8 as one, and its own.
#[tactic(auto, unfolding(crate::specs::Record::with_numbers))]
fn put_numbers(what: Record, bytes: &mut [u8])
    ensures { bytes.new ≡ with_numbers what bytes.old }
{
    let front = Field {
        first: 0,
        last: 8,
        number: BANK + what.batch % 10_000 * 10 + what.kind % 10,
    };
    put_field(front, bytes);
    for field in what.fields {
        put_own(field, bytes);
    }
}

// Puts bytes behind the first `at` where there is room for them, and answers how many are there then.
pub fn put_behind(bytes: &[u8], out: &mut [u8], at: usize) -> usize
    ensures { made out.new result ≡ put_behind (made out.old at) bytes.now }
{
    let end = at.saturating_add(bytes.len());
    if out.len() < end {
        return at;
    }
    out[at..end].copy_from_slice(bytes);
    end
}

// The bytes of a record: blanks, the letter 14, the numbers, and the line end.
#[tactic(auto, unfolding(crate::specs::Record::record_of))]
pub fn bytes_of(what: Record) -> [u8; WIDTH]
    ensures { result ≡ record_of what }
{
    let mut bytes = [b' '; WIDTH];
    bytes[13] = what.letter;
    bytes[240] = b'\r';
    bytes[241] = b'\n';
    put_numbers(what, &mut bytes);
    bytes
}

// Puts a record behind the first `at` bytes.
pub fn put(what: Record, out: &mut [u8], at: usize) -> usize
    ensures { made out.new result ≡ put_behind (made out.old at) (record_of what) }
{
    let bytes = bytes_of(what);
    put_behind(&bytes, out, at)
}
