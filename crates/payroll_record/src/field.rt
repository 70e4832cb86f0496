// A field of a record: where it stands, and the faults of what it holds.
ghost use Rattle.std.specs.Prelude.{◌≡◌};
ghost use Rattle.refusal.specs.Fault.{rule_of};
ghost use Rattle.refusal.specs.Rules.{first_broken};
ghost use Rattle.text.specs.Part.{AtPositions};
ghost use Rattle.payroll_record.specs.Field.{number_in, digit_rules, number_rules, day_rules};

use refusal::{Cause, Fault};
use text::alphabet::Alphabet;
use text::number::NoNumber;

// The first and the last position, from 1, as the tables print them. A card file's field has a content besides, which this table has not: what both do is
// `part_of` and `rule`, each a call, so a type over both would be no plainer.
#[derive(Clone, Copy)]
pub struct Field(pub usize, pub usize);

// The width of every record.
pub const WIDTH: usize = 240;

impl Field {
    // The fields that every record has in front.
    pub const BANK: Field = Field(1, 3);

    pub const BATCH: Field = Field(4, 7);

    pub const KIND: Field = Field(8, 8);
    // A detail's segment, which is a part of its kind.
    pub const SEGMENT: Field = Field(14, 14);

    // The part of a record that is this field, as far as the record goes.
    pub fn part(self, bytes: &[u8]) -> &[u8]
        ensures { AtPositions self.0 self.1 bytes.entry result }
    {
        text::part::part_of(self.0, self.1, bytes)
    }

    // What the field says as a number.
    pub fn number(self, bytes: &[u8]) -> Result<u64, NoNumber>
        ensures { result ≡ number_in self bytes.now }
    {
        text::number::number_of(self.part(bytes))
    }

    // The fault of a rule that is broken at this field unless it holds.
    pub fn rule(self, cause: Cause, holds: bool) -> Result<(), Fault>
        ensures { result ≡ rule_of cause self.0 holds }
    {
        let column = self.0 as u64;
        refusal::rule(cause, column, holds)
    }

    // The fault of this field, which is digits.
    #[tactic(auto, unfolding(refusal::specs::Rules::first_broken))]
    pub fn digits_fault(self, bytes: &[u8]) -> Result<(), Fault>
        ensures { result ≡ first_broken (digit_rules self bytes.now) }
    {
        let digits = text::alphabet::holds_only(Alphabet::Digits, self.part(bytes));
        self.rule(Cause::ByteNotAllowed, digits)
    }

    // The fault of a number that stands in this field and should be another: 7 for what is no number, else the cause given.
    #[tactic(auto, unfolding(refusal::specs::Rules::first_broken, crate::specs::Field::number_rules))]
    pub fn should_be(
        self,
        number: Result<u64, NoNumber>,
        right: u64,
        cause: Cause,
    ) -> Result<(), Fault>
        ensures { result ≡ first_broken (number_rules cause self.0 number right) }
    {
        match number {
            Err(NoNumber::NotDigits) => self.rule(Cause::ByteNotAllowed, false),
            Err(NoNumber::TooLong) => self.rule(cause, false),
            Ok(n) => self.rule(cause, n == right),
        }
    }

    // The fault of this field as a day, DDMMAAAA.
    pub fn day_fault(self, bytes: &[u8]) -> Result<(), Fault>
        ensures { result ≡ first_broken (day_rules self bytes.now) }
    {
        let column = self.0 as u64;
        calendar::when::fault_of(calendar::day::day_first(self.part(bytes)), column)
    }
}
