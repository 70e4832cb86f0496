// The file header.
ghost use Rattle.std.specs.Prelude.{◌≡◌};
ghost use Rattle.refusal.specs.Rules.{first_broken};
ghost use Rattle.payroll_record.specs.FileHeader.{code_rules, header_rules, header_of};

use crate::field::Field;
use refusal::{Cause, Fault};

// Its first fault, and whether the file is a return, in which a Z may stand.
#[derive(Clone, Copy)]
pub struct FileHeader {
    pub fault: Result<(), Fault>,
    pub is_return: bool,
}

impl FileHeader {
    // The batch number that it has.
    const BATCH: u64 = 0;
    // The code of a file that is sent or comes back, 1 or 2.
    pub const CODE: Field = Field(143, 143);

    pub const DATE: Field = Field(144, 151);

    // The fault of the code.
    #[tactic(auto, using(refusal::proofs::Rules::in_a_row), unfolding(refusal::specs::Rules::first_broken))]
    fn code_fault(bytes: &[u8]) -> Result<(), Fault>
        ensures { result ≡ first_broken (code_rules bytes.now) }
    {
        FileHeader::CODE.digits_fault(bytes)?;
        let known = text::literal::is_one_of(FileHeader::CODE.part(bytes), b"12");
        FileHeader::CODE.rule(Cause::ValueNotAllowed, known)
    }

    // The first fault of a file header: every rule of it looks at this record alone.
    #[tactic(auto, using(refusal::proofs::Rules::in_a_row), unfolding(refusal::specs::Rules::first_broken))]
    fn fault_of(bytes: &[u8]) -> Result<(), Fault>
        ensures { result ≡ first_broken (header_rules bytes.now) }
    {
        crate::front::front_fault(bytes)?;
        let batch = Field::BATCH.number(bytes);
        Field::BATCH.should_be(batch, FileHeader::BATCH, Cause::ValueNotAllowed)?;
        FileHeader::code_fault(bytes)?;
        FileHeader::DATE.day_fault(bytes)
    }

    pub fn read(bytes: &[u8]) -> FileHeader
        ensures { result ≡ header_of bytes.now }
    {
        FileHeader {
            fault: FileHeader::fault_of(bytes),
            is_return: text::literal::equals(FileHeader::CODE.part(bytes), b"2"),
        }
    }
}
