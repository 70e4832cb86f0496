// The records of the files that are made here, one function for each kind.
ghost use Rattle.std.specs.Prelude.{◌≡◌};
ghost use Rattle.payroll_cases.specs.Kinds.{file_header, batch_header, payment, batch_trailer, file_trailer};

use crate::record::{Field, Record};

// The date of each payment, DDMMAAAA.
const DATE: u64 = 15_112_023;

// The same, of the file, behind the 1 at position 143 of the file header.
const HEADER_DATE: u64 = 115_112_023;

// The file header, whose date is 144-151.
pub fn file_header() -> Record
    ensures { result ≡ file_header }
{
    Record {
        kind: 0,
        batch: 0,
        letter: b' ',
        fields: [
            Some(Field {
                first: 142,
                last: 151,
                number: HEADER_DATE,
            }),
            None,
            None,
        ],
    }
}

pub fn batch_header(batch: u64) -> Record
    ensures { result ≡ batch_header batch }
{
    Record {
        kind: 1,
        batch,
        letter: b' ',
        fields: [None, None, None],
    }
}

// A payment: the detail number 9-13, the date 94-101, the amount 120-134.
pub fn payment(batch: u64, amount: u64, number: u64) -> Record
    ensures { result ≡ payment batch amount number }
{
    Record {
        kind: 3,
        batch,
        letter: b'A',
        fields: [
            Some(Field {
                first: 8,
                last: 13,
                number,
            }),
            Some(Field {
                first: 93,
                last: 101,
                number: DATE,
            }),
            Some(Field {
                first: 119,
                last: 134,
                number: amount,
            }),
        ],
    }
}

// The trailer of a batch of so many payments: its records 18-23, the sum of its payments 24-41.
pub fn batch_trailer(batch: u64, payments: u32, sum: u64) -> Record
    ensures { result ≡ batch_trailer batch payments sum }
{
    Record {
        kind: 5,
        batch,
        letter: b' ',
        fields: [
            Some(Field {
                first: 17,
                last: 23,
                number: payments as u64 + 2,
            }),
            Some(Field {
                first: 23,
                last: 41,
                number: sum,
            }),
            None,
        ],
    }
}

// The file trailer: the batches 18-23, all records 24-29.
pub fn file_trailer(batches: u64, records: u64) -> Record
    ensures { result ≡ file_trailer batches records }
{
    Record {
        kind: 9,
        batch: 9999,
        letter: b' ',
        fields: [
            Some(Field {
                first: 17,
                last: 23,
                number: batches,
            }),
            Some(Field {
                first: 23,
                last: 29,
                number: records,
            }),
            None,
        ],
    }
}
