// A batch header.
ghost use Rattle.std.specs.Prelude.{◌≡◌};
ghost use Rattle.payroll_record.specs.BatchHeader.{batch_header_of};

use crate::field::Field;
use refusal::Fault;
use text::number::NoNumber;

// The fault in front of its batch number, and that number.
#[derive(Clone, Copy)]
pub struct BatchHeader {
    pub front: Result<(), Fault>,
    pub batch: Result<u64, NoNumber>,
}

impl BatchHeader {
    pub fn read(bytes: &[u8]) -> BatchHeader
        ensures { result ≡ batch_header_of bytes.now }
    {
        BatchHeader {
            front: crate::front::front_fault(bytes),
            batch: Field::BATCH.number(bytes),
        }
    }
}
