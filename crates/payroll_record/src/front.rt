// What every record has in front: no byte outside 32 to 126, and the bank.
ghost use Rattle.std.specs.Prelude.{◌≡◌};
ghost use Rattle.refusal.specs.Rules.{first_broken};
ghost use Rattle.payroll_record.specs.Front.{stray_rules, front_rules};

use crate::field::Field;
use refusal::{Cause, Fault};
use text::alphabet::Alphabet;

// The number of the bank.
const SAFRA: u64 = 422;

// The fault of the first byte outside 32 to 126, at its own column.
#[tactic(auto, using(crate::proofs::Strays::stray_below), unfolding(refusal::specs::Rules::first_broken, crate::specs::Front::stray_at))]
fn stray_fault(bytes: &[u8]) -> Result<(), Fault>
    ensures { result ≡ first_broken (stray_rules bytes.now) }
{
    match text::alphabet::first_stray(Alphabet::PlainAscii, bytes) {
        None => Ok(()),
        Some(place) => Err(Fault {
            cause: Cause::ByteNotAllowed,
            column: place as u64 + 1,
        }),
    }
}

// The fault of a record's bytes, and then of its bank.
#[tactic(auto, using(refusal::proofs::Rules::in_a_row), unfolding(refusal::specs::Rules::first_broken))]
pub fn front_fault(bytes: &[u8]) -> Result<(), Fault>
    ensures { result ≡ first_broken (front_rules bytes.now) }
{
    stray_fault(bytes)?;
    Field::BANK.should_be(Field::BANK.number(bytes), SAFRA, Cause::ValueNotAllowed)
}
