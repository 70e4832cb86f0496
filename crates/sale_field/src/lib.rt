// One field of a lone CV record, handed back as a part of it; never the card.
#![tactic(auto)]

ghost use Rattle.std.specs.Prelude.{◌≡◌, ◌≤◌};
ghost use Rattle.text.specs.Part.{PartOf};
ghost use Rattle.sale_field.specs.Field.{numbered, offered, field_of, place_of_field, refusal_of};

use card_content::content::Content;
use card_content::field::Field;
use card_sale::cv::Cv;
use refusal::{Cause, Refusal};
use text::literal;
use text::part::part_of;

// Fields 1 to 26 of a CV. (A `const` would be made anew at each look.)
static FIELDS: [Field; 26] = [
    Field(1, 2, Content::Text),
    Cv::STORE,
    Cv::NSU,
    Cv::DATE,
    Cv::TIME,
    Cv::LAUNCH_TYPE,
    Cv::LAUNCH_DATE,
    Cv::PRODUCT,
    Cv::CAPTURE,
    Cv::SALE_GROSS,
    Cv::SALE_DISCOUNT,
    Cv::SALE_NET,
    Cv::CARD,
    Cv::INSTALMENT,
    Cv::INSTALMENTS,
    Cv::INSTALMENT_NSU,
    Cv::INSTALMENT_GROSS,
    Cv::INSTALMENT_DISCOUNT,
    Cv::INSTALMENT_NET,
    Cv::BANK,
    Cv::BRANCH,
    Cv::ACCOUNT,
    Cv::AUTHORISATION,
    Cv::BRAND,
    Cv::PRODUCT_CODE,
    Cv::NSEQ,
];

// The field with such a number.
fn numbered(number: u64) -> Field
    requires { (1 ≤ number) × (number ≤ 26) }
    ensures { result ≡ numbered number }
{
    FIELDS[number as usize - 1]
}

// Whether a number is that of a field that may be handed back.
#[tactic(auto, using(std::proofs::lemmas::Bool::Decides::nat_tests))]
fn is_offered(number: u64) -> bool
    ensures { result ≡ offered number }
{
    1 <= number && number <= 26 && number != 13
}

// Whether the field with this number is offered of this record, or why not: 4, then 6, then 14.
#[tactic(auto, using(std::proofs::lemmas::Bool::Decides::nat_tests), unfolding(crate::specs::Field::refusal_of))]
pub fn field_answer(bytes: &[u8], number: u64) -> Result<(), Refusal>
    ensures { result ≡ refusal_of bytes.now number }
{
    if !literal::equals(part_of(1, 2, bytes), b"CV") {
        return Err(Refusal {
            cause: Cause::KindUnknown,
            record: 1,
            column: 1,
        });
    }
    if bytes.len() != Cv::WIDTH {
        return Err(Refusal {
            cause: Cause::WrongWidth,
            record: 1,
            column: 0,
        });
    }
    if !is_offered(number) {
        return Err(Refusal::nowhere(Cause::FieldNotOffered));
    }
    Ok(())
}

// The part of the record that is the field; an empty part where it is refused.
pub fn field(bytes: &[u8], number: u64) -> &[u8]
    ensures { PartOf bytes.entry (place_of_field bytes.now number) (field_of bytes.now number) result }
{
    match field_answer(bytes, number) {
        Ok(()) => numbered(number).part(bytes),
        Err(_) => &bytes[..0],
    }
}

// The place in the record, from 0, at which that part begins; 0 where it is refused.
pub fn place(bytes: &[u8], number: u64) -> usize
    ensures { result ≡ place_of_field bytes.now number }
{
    match field_answer(bytes, number) {
        Ok(()) => numbered(number).0 - 1,
        Err(_) => 0,
    }
}
