// A field of a record: where it stands and what it may hold.
ghost use Rattle.std.specs.Prelude.{◌≡◌};
ghost use Rattle.refusal.specs.Fault.{rule_of};
ghost use Rattle.refusal.specs.Rules.{first_broken};
ghost use Rattle.text.specs.Part.{AtPositions};
ghost use Rattle.card_content.specs.Field.{field_rules, number_in};

use crate::content::{self, Content};
use refusal::{Cause, Fault};
use text::number;

// The first and the last position, from 1, as the tables print them, and the content. (`payroll_record` has a field without, and says why.)
#[derive(Clone, Copy)]
pub struct Field(pub usize, pub usize, pub Content);

impl Field {
    // The part of a record that is this field, as far as the record goes.
    pub fn part(self, bytes: &[u8]) -> &[u8]
        ensures { AtPositions self.0 self.1 bytes.entry result }
    {
        text::part::part_of(self.0, self.1, bytes)
    }

    // The fault of this field in a record.
    pub fn fault(self, edition: u64, bytes: &[u8]) -> Result<(), Fault>
        ensures { result ≡ first_broken (field_rules edition bytes.now self) }
    {
        content::fault_of(self.2, edition, self.0 as u64, self.part(bytes))
    }

    // The number that this field's digits write in a record; 0 where they write none.
    pub fn number(self, bytes: &[u8]) -> u64
        ensures { result ≡ number_in self bytes.now }
    {
        number::or_zero(number::number_of(self.part(bytes)))
    }

    // The fault of a rule that is broken at this field unless it holds.
    pub fn rule(self, cause: Cause, holds: bool) -> Result<(), Fault>
        ensures { result ≡ rule_of cause self.0 holds }
    {
        refusal::rule(cause, self.0 as u64, holds)
    }
}
