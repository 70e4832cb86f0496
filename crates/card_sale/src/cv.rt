// CV, a sale.
ghost use Rattle.std.specs.Prelude.{◌≡◌};
ghost use Rattle.refusal.specs.Rules.{first_broken};
ghost use Rattle.card_content.specs.Field.{table_rules, record_rules};
ghost use Rattle.card_sale.specs.Cv.{
  sale_table,
  amount_table,
  bank_table,
  cv_table,
  amounts_in,
  cv_of,
  is_forecast,
  has_instalment,
  instalment_right,
  payable,
  joined_rules,
};

use card_content::content::{ClosedSet, Content};
use card_content::field::Field;
use refusal::{Cause, Fault};
use totals::amounts::Amounts;

// What later rules and the totals need of it; not the card. The launch type stays the number that was read (`cv_of`): a state that a caller made up may have any.
#[derive(Clone, Copy)]
pub struct Cv {
    pub launch_type: u64,
    pub sale: Amounts,
    pub instalment: u64,
    pub instalments: u64,
    pub instalment_nsu: u64,
    pub instalment_amounts: Amounts,
    pub nseq: u64,
}

impl Cv {
    pub const WIDTH: usize = 199;

    pub const STORE: Field = Field(3, 17, Content::Text);

    pub const NSU: Field = Field(18, 29, Content::Digits);

    pub const DATE: Field = Field(30, 37, Content::Day);

    pub const TIME: Field = Field(38, 43, Content::Time);

    pub const LAUNCH_TYPE: Field = Field(44, 44, Content::OneOf(ClosedSet::LaunchType));

    pub const LAUNCH_DATE: Field = Field(45, 52, Content::Day);

    pub const PRODUCT: Field = Field(53, 53, Content::OneOf(ClosedSet::Product));

    pub const CAPTURE: Field = Field(54, 54, Content::OneOf(ClosedSet::Capture));

    pub const SALE_GROSS: Field = Field(55, 65, Content::Digits);

    pub const SALE_DISCOUNT: Field = Field(66, 76, Content::Digits);

    pub const SALE_NET: Field = Field(77, 87, Content::Digits);

    pub const CARD: Field = Field(88, 106, Content::Card);

    pub const INSTALMENT: Field = Field(107, 108, Content::Digits);

    pub const INSTALMENTS: Field = Field(109, 110, Content::Digits);

    pub const INSTALMENT_NSU: Field = Field(111, 122, Content::Digits);

    pub const INSTALMENT_GROSS: Field = Field(123, 133, Content::Digits);

    pub const INSTALMENT_DISCOUNT: Field = Field(134, 144, Content::Digits);

    pub const INSTALMENT_NET: Field = Field(145, 155, Content::Digits);

    pub const BANK: Field = Field(156, 158, Content::Digits);

    pub const BRANCH: Field = Field(159, 164, Content::Digits);

    pub const ACCOUNT: Field = Field(165, 175, Content::Text);

    pub const AUTHORISATION: Field = Field(176, 187, Content::Digits);

    pub const BRAND: Field = Field(188, 190, Content::Text);

    pub const PRODUCT_CODE: Field = Field(191, 193, Content::Text);

    pub const NSEQ: Field = Field(194, 199, Content::Digits);

    // The first fault of the fields from store to capture.
    #[tactic(auto, using(card_content::proofs::Rows::each_field))]
    fn sale_fields(edition: u64, bytes: &[u8]) -> Result<(), Fault>
        ensures { result ≡ first_broken (table_rules edition bytes.now sale_table) }
    {
        Cv::STORE.fault(edition, bytes)?;
        Cv::NSU.fault(edition, bytes)?;
        Cv::DATE.fault(edition, bytes)?;
        Cv::TIME.fault(edition, bytes)?;
        Cv::LAUNCH_TYPE.fault(edition, bytes)?;
        Cv::LAUNCH_DATE.fault(edition, bytes)?;
        Cv::PRODUCT.fault(edition, bytes)?;
        Cv::CAPTURE.fault(edition, bytes)
    }

    // The first fault of the fields from sale gross to instalment net.
    #[tactic(auto, using(card_content::proofs::Rows::each_field))]
    fn amount_fields(edition: u64, bytes: &[u8]) -> Result<(), Fault>
        ensures { result ≡ first_broken (table_rules edition bytes.now amount_table) }
    {
        Cv::SALE_GROSS.fault(edition, bytes)?;
        Cv::SALE_DISCOUNT.fault(edition, bytes)?;
        Cv::SALE_NET.fault(edition, bytes)?;
        Cv::CARD.fault(edition, bytes)?;
        Cv::INSTALMENT.fault(edition, bytes)?;
        Cv::INSTALMENTS.fault(edition, bytes)?;
        Cv::INSTALMENT_NSU.fault(edition, bytes)?;
        Cv::INSTALMENT_GROSS.fault(edition, bytes)?;
        Cv::INSTALMENT_DISCOUNT.fault(edition, bytes)?;
        Cv::INSTALMENT_NET.fault(edition, bytes)
    }

    // The first fault of the fields from bank to NSEQ.
    #[tactic(auto, using(card_content::proofs::Rows::each_field))]
    fn bank_fields(edition: u64, bytes: &[u8]) -> Result<(), Fault>
        ensures { result ≡ first_broken (table_rules edition bytes.now bank_table) }
    {
        Cv::BANK.fault(edition, bytes)?;
        Cv::BRANCH.fault(edition, bytes)?;
        Cv::ACCOUNT.fault(edition, bytes)?;
        Cv::AUTHORISATION.fault(edition, bytes)?;
        Cv::BRAND.fault(edition, bytes)?;
        Cv::PRODUCT_CODE.fault(edition, bytes)?;
        Cv::NSEQ.fault(edition, bytes)
    }

    // The first fault of a record of this kind among its width and its fields.
    #[tactic(auto, using(crate::proofs::Groups::in_groups))]
    pub fn fault(edition: u64, bytes: &[u8]) -> Result<(), Fault>
        ensures { result ≡ first_broken (record_rules edition bytes.now 199 cv_table) }
    {
        refusal::rule(Cause::WrongWidth, 0, bytes.len() == Cv::WIDTH)?;
        Cv::sale_fields(edition, bytes)?;
        Cv::amount_fields(edition, bytes)?;
        Cv::bank_fields(edition, bytes)
    }

    // The amounts in three fields.
    fn amounts_in(gross: Field, discount: Field, net: Field, bytes: &[u8]) -> Amounts
        ensures { result ≡ amounts_in gross discount net bytes.now }
    {
        Amounts {
            gross: gross.number(bytes),
            discount: discount.number(bytes),
            net: net.number(bytes),
        }
    }

    // The numbers of a record of this kind.
    pub fn read(bytes: &[u8]) -> Cv
        ensures { result ≡ cv_of bytes.now }
    {
        Cv {
            launch_type: Cv::LAUNCH_TYPE.number(bytes),
            sale: Cv::amounts_in(Cv::SALE_GROSS, Cv::SALE_DISCOUNT, Cv::SALE_NET, bytes),
            instalment: Cv::INSTALMENT.number(bytes),
            instalments: Cv::INSTALMENTS.number(bytes),
            instalment_nsu: Cv::INSTALMENT_NSU.number(bytes),
            instalment_amounts: Cv::amounts_in(
                Cv::INSTALMENT_GROSS,
                Cv::INSTALMENT_DISCOUNT,
                Cv::INSTALMENT_NET,
                bytes,
            ),
            nseq: Cv::NSEQ.number(bytes),
        }
    }

    // Whether it is a forecast; any other sale is settled.
    pub fn is_forecast(self) -> bool
        ensures { result ≡ is_forecast self }
    {
        self.launch_type == 0
    }

    // Whether the sale is paid in instalments: the two numbers are not both zero.
    #[tactic(auto, using(std::proofs::lemmas::Bool::Decides::nat_tests))]
    pub fn has_instalment(self) -> bool
        ensures { result ≡ has_instalment self }
    {
        self.instalment != 0 || self.instalments != 0
    }

    // What is payable: the instalment's amounts where there is an instalment, else the sale's.
    pub fn payable_amounts(self) -> Amounts
        ensures { result ≡ payable self }
    {
        if self.has_instalment() {
            self.instalment_amounts
        } else {
            self.sale
        }
    }

    // Whether the two numbers of an instalment go together.
    #[tactic(auto, using(std::proofs::lemmas::Bool::Decides::nat_tests))]
    fn instalment_right(self) -> bool
        ensures { result ≡ instalment_right self }
    {
        !self.has_instalment() || 1 <= self.instalment && self.instalment <= self.instalments
    }

    // The first fault of the joined rules that look at this record alone.
    #[tactic(auto, using(std::proofs::lemmas::Bool::Decides::nat_tests), unfolding(crate::specs::Cv::joined_rules, refusal::specs::Rules::first_broken))]
    pub fn joined_fault(self) -> Result<(), Fault>
        ensures { result ≡ first_broken (joined_rules self) }
    {
        let paid_in = self.has_instalment();
        Cv::INSTALMENT.rule(Cause::ValueNotAllowed, self.instalment_right())?;
        Cv::INSTALMENT_NSU.rule(Cause::ValueNotAllowed, paid_in || self.instalment_nsu == 0)?;
        Cv::INSTALMENT_GROSS.rule(
            Cause::ValueNotAllowed,
            paid_in || self.instalment_amounts.gross == 0,
        )?;
        Cv::INSTALMENT_DISCOUNT.rule(
            Cause::ValueNotAllowed,
            paid_in || self.instalment_amounts.discount == 0,
        )?;
        Cv::INSTALMENT_NET.rule(
            Cause::ValueNotAllowed,
            paid_in || self.instalment_amounts.net == 0,
        )?;
        Cv::SALE_NET.rule(Cause::AmountsDisagree, self.sale.agree())?;
        Cv::INSTALMENT_NET.rule(
            Cause::AmountsDisagree,
            !paid_in || self.instalment_amounts.agree(),
        )
    }
}
