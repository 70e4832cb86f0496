// A batch trailer: it counts the batch's records and sums its payments.
ghost use Rattle.std.specs.Prelude.{◌≡◌};
ghost use Rattle.payroll_record.specs.BatchTrailer.{batch_trailer_of};

use crate::field::Field;
use refusal::Fault;
use text::number::NoNumber;

// The fault in front of its batch number, that number, and what it counts and sums.
#[derive(Clone, Copy)]
pub struct BatchTrailer {
    pub front: Result<(), Fault>,
    pub batch: Result<u64, NoNumber>,
    pub count: Result<u64, NoNumber>,
    pub sum: Result<u64, NoNumber>,
}

impl BatchTrailer {
    pub const COUNT: Field = Field(18, 23);

    pub const SUM: Field = Field(24, 41);

    pub fn read(bytes: &[u8]) -> BatchTrailer
        ensures { result ≡ batch_trailer_of bytes.now }
    {
        BatchTrailer {
            front: crate::front::front_fault(bytes),
            batch: Field::BATCH.number(bytes),
            count: BatchTrailer::COUNT.number(bytes),
            sum: BatchTrailer::SUM.number(bytes),
        }
    }
}
