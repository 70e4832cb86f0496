// L9, the trailer of a batch: it counts the batch's sales and adjustments, and sums them.
ghost use Rattle.std.specs.Prelude.{◌≡◌};
ghost use Rattle.refusal.specs.Rules.{first_broken};
ghost use Rattle.card_content.specs.Field.{record_rules};
ghost use Rattle.card_frame.specs.L9.{l9_table, l9_of};

use card_content::content::Content;
use card_content::field::Field;
use refusal::{Cause, Fault};

// What later rules need of it.
#[derive(Clone, Copy)]
pub struct L9 {
    pub count: u64,
    pub sum: u64,
    pub nseq: u64,
}

impl L9 {
    pub const WIDTH: usize = 28;

    pub const COUNT: Field = Field(3, 8, Content::Digits);

    pub const SUM: Field = Field(9, 22, Content::Digits);

    pub const NSEQ: Field = Field(23, 28, Content::Digits);

    // The first fault of a record of this kind among its width and its fields.
    #[tactic(auto, using(card_content::proofs::Rows::width_and_fields))]
    pub fn fault(edition: u64, bytes: &[u8]) -> Result<(), Fault>
        ensures { result ≡ first_broken (record_rules edition bytes.now 28 l9_table) }
    {
        refusal::rule(Cause::WrongWidth, 0, bytes.len() == L9::WIDTH)?;
        L9::COUNT.fault(edition, bytes)?;
        L9::SUM.fault(edition, bytes)?;
        L9::NSEQ.fault(edition, bytes)
    }

    // The numbers of a record of this kind.
    pub fn read(bytes: &[u8]) -> L9
        ensures { result ≡ l9_of bytes.now }
    {
        L9 {
            count: L9::COUNT.number(bytes),
            sum: L9::SUM.number(bytes),
            nseq: L9::NSEQ.number(bytes),
        }
    }
}
