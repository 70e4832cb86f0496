// A0, the header of a file.
ghost use Rattle.std.specs.Prelude.{◌≡◌};
ghost use Rattle.refusal.specs.Rules.{first_broken};
ghost use Rattle.card_content.specs.Field.{record_rules};
ghost use Rattle.card_frame.specs.A0.{a0_table, a0_of};

use card_content::content::{ClosedSet, Content};
use card_content::field::Field;
use refusal::{Cause, Fault};

// What later rules and the answer need of it.
#[derive(Clone, Copy)]
pub struct A0 {
    pub date: u64,
    pub movement: u64,
    pub reprocessed: bool,
    pub nseq: u64,
}

impl A0 {
    pub const WIDTH: usize = 75;

    pub const VERSION: Field = Field(3, 8, Content::OneOf(ClosedSet::Version));

    pub const DATE: Field = Field(9, 16, Content::Day);

    pub const TIME: Field = Field(17, 22, Content::Time);

    pub const MOVEMENT: Field = Field(23, 28, Content::Digits);

    pub const NAME: Field = Field(29, 58, Content::Text);

    pub const SENDER: Field = Field(59, 62, Content::Digits);

    pub const RECEIVER: Field = Field(63, 68, Content::Digits);

    pub const PROCESSING: Field = Field(69, 69, Content::OneOf(ClosedSet::Processing));

    pub const NSEQ: Field = Field(70, 75, Content::Digits);

    // The first fault of a record of this kind among its width and its fields.
    #[tactic(auto, using(card_content::proofs::Rows::width_and_fields))]
    pub fn fault(edition: u64, bytes: &[u8]) -> Result<(), Fault>
        ensures { result ≡ first_broken (record_rules edition bytes.now 75 a0_table) }
    {
        refusal::rule(Cause::WrongWidth, 0, bytes.len() == A0::WIDTH)?;
        A0::VERSION.fault(edition, bytes)?;
        A0::DATE.fault(edition, bytes)?;
        A0::TIME.fault(edition, bytes)?;
        A0::MOVEMENT.fault(edition, bytes)?;
        A0::NAME.fault(edition, bytes)?;
        A0::SENDER.fault(edition, bytes)?;
        A0::RECEIVER.fault(edition, bytes)?;
        A0::PROCESSING.fault(edition, bytes)?;
        A0::NSEQ.fault(edition, bytes)
    }

    // The numbers of a record of this kind.
    pub fn read(bytes: &[u8]) -> A0
        ensures { result ≡ a0_of bytes.now }
    {
        A0 {
            date: A0::DATE.number(bytes),
            movement: A0::MOVEMENT.number(bytes),
            reprocessed: text::literal::equals(A0::PROCESSING.part(bytes), b"R"),
            nseq: A0::NSEQ.number(bytes),
        }
    }
}
