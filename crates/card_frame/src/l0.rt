// L0, the header of a batch.
ghost use Rattle.std.specs.Prelude.{◌≡◌};
ghost use Rattle.refusal.specs.Rules.{first_broken};
ghost use Rattle.card_content.specs.Field.{record_rules};
ghost use Rattle.card_frame.specs.L0.{l0_table, l0_of};

use card_content::content::{ClosedSet, Content};
use card_content::field::Field;
use refusal::{Cause, Fault};

// What later rules need of it.
#[derive(Clone, Copy)]
pub struct L0 {
    pub nseq: u64,
}

impl L0 {
    pub const WIDTH: usize = 18;

    pub const DATE: Field = Field(3, 10, Content::Day);

    pub const CURRENCY: Field = Field(11, 12, Content::OneOf(ClosedSet::Currency));

    pub const NSEQ: Field = Field(13, 18, Content::Digits);

    // The first fault of a record of this kind among its width and its fields.
    #[tactic(auto, using(card_content::proofs::Rows::width_and_fields))]
    pub fn fault(edition: u64, bytes: &[u8]) -> Result<(), Fault>
        ensures { result ≡ first_broken (record_rules edition bytes.now 18 l0_table) }
    {
        refusal::rule(Cause::WrongWidth, 0, bytes.len() == L0::WIDTH)?;
        L0::DATE.fault(edition, bytes)?;
        L0::CURRENCY.fault(edition, bytes)?;
        L0::NSEQ.fault(edition, bytes)
    }

    // The numbers of a record of this kind.
    pub fn read(bytes: &[u8]) -> L0
        ensures { result ≡ l0_of bytes.now }
    {
        L0 {
            nseq: L0::NSEQ.number(bytes),
        }
    }
}
