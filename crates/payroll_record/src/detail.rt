// A detail: segment A is a payment, B and Z tell more of it.
ghost use Rattle.std.specs.Prelude.{◌≡◌};
ghost use Rattle.refusal.specs.Rules.{first_broken};
ghost use Rattle.payroll_record.specs.Detail.{payment_rules, amount_of, segment_aOf, other_segment_of};

use crate::field::Field;
use crate::kind::Kind;
use refusal::Fault;
use text::number::NoNumber;

// The fault in front of its batch number, that number, its detail number, the fault behind it, and a payment's amount.
#[derive(Clone, Copy)]
pub struct Detail {
    // One of three. (A `Kind`, since `Detail::read_other` takes any, and `detail_of` and `other_segment_of` say so: what may not change.)
    pub segment: Kind,
    pub front: Result<(), Fault>,
    pub batch: Result<u64, NoNumber>,
    pub number: Result<u64, NoNumber>,
    pub rest: Result<(), Fault>,
    pub amount: u64,
}

impl Detail {
    pub const NUMBER: Field = Field(9, 13);
    // Of segment A.
    pub const DATE: Field = Field(94, 101);

    pub const AMOUNT: Field = Field(120, 134);

    // The amount in centavos; 0 where it is no number.
    fn amount_of(bytes: &[u8]) -> u64
        ensures { result ≡ amount_of bytes.now }
    {
        text::number::or_zero(Detail::AMOUNT.number(bytes))
    }

    // The fault of a payment's day, and then of its amount.
    #[tactic(auto, using(refusal::proofs::Rules::in_a_row), unfolding(refusal::specs::Rules::first_broken))]
    fn payment_fault(bytes: &[u8]) -> Result<(), Fault>
        ensures { result ≡ first_broken (payment_rules bytes.now) }
    {
        Detail::DATE.day_fault(bytes)?;
        Detail::AMOUNT.digits_fault(bytes)
    }

    // A payment.
    pub fn read_a(bytes: &[u8]) -> Detail
        ensures { result ≡ segment_aOf bytes.now }
    {
        Detail {
            segment: Kind::SegmentA,
            front: crate::front::front_fault(bytes),
            batch: Field::BATCH.number(bytes),
            number: Detail::NUMBER.number(bytes),
            rest: Detail::payment_fault(bytes),
            amount: Detail::amount_of(bytes),
        }
    }

    // A segment with no field of its own that is judged.
    pub fn read_other(segment: Kind, bytes: &[u8]) -> Detail
        ensures { result ≡ other_segment_of segment bytes.now }
    {
        Detail {
            segment,
            front: crate::front::front_fault(bytes),
            batch: Field::BATCH.number(bytes),
            number: Detail::NUMBER.number(bytes),
            rest: Ok(()),
            amount: 0,
        }
    }
}
