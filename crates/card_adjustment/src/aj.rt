// AJ, an adjustment: a credit or a debit.
ghost use Rattle.std.specs.Prelude.{◌≡◌};
ghost use Rattle.refusal.specs.Rules.{first_broken};
ghost use Rattle.card_content.specs.Field.{table_rules, record_rules};
ghost use Rattle.card_adjustment.specs.Aj.{transaction_table, adjustment_table, bank_table, aj_table, aj_amounts, aj_of, is_credit, joined_rules};

use card_content::content::{ClosedSet, Content};
use card_content::field::Field;
use refusal::{Cause, Fault};
use totals::amounts::Amounts;

// What later rules and the totals need of it; not the card. The type stays the number that was read (`aj_of`), as the launch type of a sale does.
#[derive(Clone, Copy)]
pub struct Aj {
    pub adjustment_type: u64,
    pub amounts: Amounts,
    pub nseq: u64,
}

impl Aj {
    pub const WIDTH: usize = 193;

    pub const STORE: Field = Field(3, 17, Content::Text);

    pub const ORIGINAL_NSU: Field = Field(18, 29, Content::Digits);

    pub const ORIGINAL_DATE: Field = Field(30, 37, Content::DayOrZeros);

    pub const INSTALMENT: Field = Field(38, 39, Content::Digits);

    pub const NSU: Field = Field(40, 51, Content::Digits);

    pub const DATE: Field = Field(52, 59, Content::Day);

    pub const TIME: Field = Field(60, 65, Content::Time);

    pub const LAUNCH_TYPE: Field = Field(66, 66, Content::OneOf(ClosedSet::LaunchType));

    pub const LAUNCH_DATE: Field = Field(67, 74, Content::Day);

    pub const CAPTURE: Field = Field(75, 75, Content::OneOf(ClosedSet::AdjustmentCapture));

    pub const ADJUSTMENT_TYPE: Field = Field(76, 76, Content::OneOf(ClosedSet::AdjustmentType));

    pub const REASON: Field = Field(77, 79, Content::Digits);

    pub const DESCRIPTION: Field = Field(80, 109, Content::Text);

    pub const GROSS: Field = Field(110, 120, Content::Digits);

    pub const DISCOUNT: Field = Field(121, 131, Content::Digits);

    pub const NET: Field = Field(132, 142, Content::Digits);

    pub const BANK: Field = Field(143, 145, Content::Digits);

    pub const BRANCH: Field = Field(146, 151, Content::Digits);

    pub const ACCOUNT: Field = Field(152, 162, Content::Text);

    pub const CARD: Field = Field(163, 181, Content::CardOrBlanks);

    pub const BRAND: Field = Field(182, 184, Content::Text);

    pub const PRODUCT_CODE: Field = Field(185, 187, Content::Text);

    pub const NSEQ: Field = Field(188, 193, Content::Digits);

    // The first fault of the fields from store to launch date.
    #[tactic(auto, using(card_content::proofs::Rows::each_field))]
    fn transaction_fields(edition: u64, bytes: &[u8]) -> Result<(), Fault>
        ensures { result ≡ first_broken (table_rules edition bytes.now transaction_table) }
    {
        Aj::STORE.fault(edition, bytes)?;
        Aj::ORIGINAL_NSU.fault(edition, bytes)?;
        Aj::ORIGINAL_DATE.fault(edition, bytes)?;
        Aj::INSTALMENT.fault(edition, bytes)?;
        Aj::NSU.fault(edition, bytes)?;
        Aj::DATE.fault(edition, bytes)?;
        Aj::TIME.fault(edition, bytes)?;
        Aj::LAUNCH_TYPE.fault(edition, bytes)?;
        Aj::LAUNCH_DATE.fault(edition, bytes)
    }

    // The first fault of the fields from capture to net.
    #[tactic(auto, using(card_content::proofs::Rows::each_field))]
    fn adjustment_fields(edition: u64, bytes: &[u8]) -> Result<(), Fault>
        ensures { result ≡ first_broken (table_rules edition bytes.now adjustment_table) }
    {
        Aj::CAPTURE.fault(edition, bytes)?;
        Aj::ADJUSTMENT_TYPE.fault(edition, bytes)?;
        Aj::REASON.fault(edition, bytes)?;
        Aj::DESCRIPTION.fault(edition, bytes)?;
        Aj::GROSS.fault(edition, bytes)?;
        Aj::DISCOUNT.fault(edition, bytes)?;
        Aj::NET.fault(edition, bytes)
    }

    // The first fault of the fields from bank to NSEQ.
    #[tactic(auto, using(card_content::proofs::Rows::each_field))]
    fn bank_fields(edition: u64, bytes: &[u8]) -> Result<(), Fault>
        ensures { result ≡ first_broken (table_rules edition bytes.now bank_table) }
    {
        Aj::BANK.fault(edition, bytes)?;
        Aj::BRANCH.fault(edition, bytes)?;
        Aj::ACCOUNT.fault(edition, bytes)?;
        Aj::CARD.fault(edition, bytes)?;
        Aj::BRAND.fault(edition, bytes)?;
        Aj::PRODUCT_CODE.fault(edition, bytes)?;
        Aj::NSEQ.fault(edition, bytes)
    }

    // The first fault of a record of this kind among its width and its fields.
    #[tactic(auto, using(crate::proofs::Groups::in_groups))]
    pub fn fault(edition: u64, bytes: &[u8]) -> Result<(), Fault>
        ensures { result ≡ first_broken (record_rules edition bytes.now 193 aj_table) }
    {
        refusal::rule(Cause::WrongWidth, 0, bytes.len() == Aj::WIDTH)?;
        Aj::transaction_fields(edition, bytes)?;
        Aj::adjustment_fields(edition, bytes)?;
        Aj::bank_fields(edition, bytes)
    }

    // Its amounts.
    fn amounts_of(bytes: &[u8]) -> Amounts
        ensures { result ≡ aj_amounts bytes.now }
    {
        Amounts {
            gross: Aj::GROSS.number(bytes),
            discount: Aj::DISCOUNT.number(bytes),
            net: Aj::NET.number(bytes),
        }
    }

    // The numbers of a record of this kind.
    pub fn read(bytes: &[u8]) -> Aj
        ensures { result ≡ aj_of bytes.now }
    {
        Aj {
            adjustment_type: Aj::ADJUSTMENT_TYPE.number(bytes),
            amounts: Aj::amounts_of(bytes),
            nseq: Aj::NSEQ.number(bytes),
        }
    }

    // Whether it is a credit; any other is a debit.
    pub fn is_credit(self) -> bool
        ensures { result ≡ is_credit self }
    {
        self.adjustment_type == 1
    }

    // The fault of the joined rule that looks at this record alone.
    #[tactic(auto, using(refusal::proofs::Rows::one_rule), unfolding(crate::specs::Aj::joined_rules))]
    pub fn joined_fault(self) -> Result<(), Fault>
        ensures { result ≡ first_broken (joined_rules self) }
    {
        Aj::NET.rule(Cause::AmountsDisagree, self.amounts.agree())
    }
}
