// A9, the trailer of a file: it counts the file's records.
ghost use Rattle.std.specs.Prelude.{◌≡◌};
ghost use Rattle.refusal.specs.Rules.{first_broken};
ghost use Rattle.card_content.specs.Field.{record_rules};
ghost use Rattle.card_frame.specs.A9.{a9_table, a9_of};

use card_content::content::Content;
use card_content::field::Field;
use refusal::{Cause, Fault};

// What later rules need of it.
#[derive(Clone, Copy)]
pub struct A9 {
    pub count: u64,
    pub nseq: u64,
}

impl A9 {
    pub const WIDTH: usize = 14;

    pub const COUNT: Field = Field(3, 8, Content::Digits);

    pub const NSEQ: Field = Field(9, 14, Content::Digits);

    // The first fault of a record of this kind among its width and its fields.
    #[tactic(auto, using(card_content::proofs::Rows::width_and_fields))]
    pub fn fault(edition: u64, bytes: &[u8]) -> Result<(), Fault>
        ensures { result ≡ first_broken (record_rules edition bytes.now 14 a9_table) }
    {
        refusal::rule(Cause::WrongWidth, 0, bytes.len() == A9::WIDTH)?;
        A9::COUNT.fault(edition, bytes)?;
        A9::NSEQ.fault(edition, bytes)
    }

    // The numbers of a record of this kind.
    pub fn read(bytes: &[u8]) -> A9
        ensures { result ≡ a9_of bytes.now }
    {
        A9 {
            count: A9::COUNT.number(bytes),
            nseq: A9::NSEQ.number(bytes),
        }
    }
}
