// The file trailer: it counts the file's batches and records.
ghost use Rattle.std.specs.Prelude.{◌≡◌};
ghost use Rattle.refusal.specs.Rules.{first_broken};
ghost use Rattle.payroll_record.specs.FileTrailer.{trailer_front_rules, file_trailer_of};

use crate::field::Field;
use refusal::{Cause, Fault};
use text::number::NoNumber;

// The fault in front of its counts, and these.
#[derive(Clone, Copy)]
pub struct FileTrailer {
    pub front: Result<(), Fault>,
    pub batches: Result<u64, NoNumber>,
    pub records: Result<u64, NoNumber>,
}

impl FileTrailer {
    // The batch number that it has.
    const BATCH: u64 = 9999;

    pub const BATCHES: Field = Field(18, 23);

    pub const RECORDS: Field = Field(24, 29);

    // The fault of the bytes, the bank and the batch number.
    #[tactic(auto, using(refusal::proofs::Rules::in_a_row), unfolding(refusal::specs::Rules::first_broken))]
    fn front_of(bytes: &[u8]) -> Result<(), Fault>
        ensures { result ≡ first_broken (trailer_front_rules bytes.now) }
    {
        crate::front::front_fault(bytes)?;
        let batch = Field::BATCH.number(bytes);
        Field::BATCH.should_be(batch, FileTrailer::BATCH, Cause::ValueNotAllowed)
    }

    pub fn read(bytes: &[u8]) -> FileTrailer
        ensures { result ≡ file_trailer_of bytes.now }
    {
        FileTrailer {
            front: FileTrailer::front_of(bytes),
            batches: FileTrailer::BATCHES.number(bytes),
            records: FileTrailer::RECORDS.number(bytes),
        }
    }
}
