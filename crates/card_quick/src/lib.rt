// The quick way through a sale. All its bytes are compared with two pictures of a sale, many at once; what the pictures leave open is judged,
// and the numbers are read with no second look. A sale that passes is right. Any other goes the slow way, field by field, which finds its fault.
#![tactic(auto)]

ghost use Rattle.std.specs.Prelude.{◌≡◌, length};
ghost use Rattle.card_content.specs.Content.{in_set};
ghost use Rattle.card_content.specs.Field.{part_of};
ghost use Rattle.card_record.specs.Reading.{reading_of};
ghost use Rattle.card_quick.specs.Quick.{
  none_above,
  in_picture,
  value_in,
  sets_right,
  days_right,
  surely_right,
  passes_quick,
  amounts_in,
  quick_cv,
};

use calendar::day::is_day;
use calendar::time::is_time;
use card_content::content::ClosedSet;
use card_content::field::Field;
use card_record::reading::Reading;
use card_sale::cv::Cv;
use totals::amounts::Amounts;

// Whether no byte of one row is above its neighbour in the other. There is no way out before the end, so that the machine can look at many
// bytes at once.
#[tactic(auto, using(crate::proofs::Pictures::above, crate::proofs::Pictures::not_above))]
fn none_above(low: &[u8], high: &[u8]) -> bool
    requires { length low.now ≡ length high.now }
    ensures { result ≡ none_above low.now high.now }
{
    let mut none = true;
    for (&low, &high) in low.iter().zip(high) {
        if high < low {
            none = false;
        }
    }
    none
}

// Whether each byte of a record lies between the least and the greatest of a sale at its place.
#[tactic(auto, unfolding(crate::specs::Quick::in_picture, crate::specs::Quick::least, crate::specs::Quick::greatest))]
fn in_picture(sale: &[u8]) -> bool
    requires { length sale.now ≡ 199 }
    ensures { result ≡ in_picture sale.now }
{
    let least =
        b"CV               00000000000000000000000000000000000C1000000000000000000000000000000000*******************0000000000000000000000000000000000000000000000000000000000           000000000000      000000";
    let greatest =
        b"CV~~~~~~~~~~~~~~~99999999999999999999999999999999999V999999999999999999999999999999999999999999999999999999999999999999999999999999999999999999999999999999999999999~~~~~~~~~~~999999999999~~~~~~999999";
    none_above(least, sale) && none_above(sale, greatest)
}

// Whether a field of a record is a value of a closed set.
fn is_in(field: Field, set: ClosedSet, edition: u64, sale: &[u8]) -> bool
    ensures { result ≡ in_set set edition (part_of field sale.now) }
{
    card_content::content::is_in_set(set, edition, field.part(sale))
}

// The value of a field of a record, if it is digits.
fn value(field: Field, sale: &[u8]) -> u64
    ensures { result ≡ value_in field sale.now }
{
    text::number::value_if_digits(field.part(sale))
}

// Whether the closed sets of a sale and its card are kept.
#[tactic(auto, unfolding(crate::specs::Quick::sets_right))]
fn sets_right(edition: u64, sale: &[u8]) -> bool
    ensures { result ≡ sets_right edition sale.now }
{
    is_in(Cv::LAUNCH_TYPE, ClosedSet::LaunchType, edition, sale)
        && is_in(Cv::PRODUCT, ClosedSet::Product, edition, sale)
        && is_in(Cv::CAPTURE, ClosedSet::Capture, edition, sale)
        && pan::well_formed(Cv::CARD.part(sale))
}

// Whether the dates and the time of a sale are real, if they are digits.
#[tactic(auto, unfolding(crate::specs::Quick::days_right))]
fn days_right(sale: &[u8]) -> bool
    ensures { result ≡ days_right sale.now }
{
    is_day(value(Cv::DATE, sale))
        && is_time(value(Cv::TIME, sale))
        && is_day(value(Cv::LAUNCH_DATE, sale))
}

// Whether a record is surely a right sale.
#[tactic(auto, unfolding(crate::specs::Quick::surely_right))]
fn is_right(edition: u64, sale: &[u8]) -> bool
    requires { length sale.now ≡ 199 }
    ensures { result ≡ surely_right edition sale.now }
{
    in_picture(sale) && sets_right(edition, sale) && days_right(sale)
}

// The amounts in three fields, if they are digits.
fn amounts(gross: Field, discount: Field, net: Field, sale: &[u8]) -> Amounts
    ensures { result ≡ amounts_in gross discount net sale.now }
{
    Amounts {
        gross: value(gross, sale),
        discount: value(discount, sale),
        net: value(net, sale),
    }
}

// The numbers of a sale that is surely right.
fn numbers(sale: &[u8]) -> Cv
    ensures { result ≡ quick_cv sale.now }
{
    Cv {
        launch_type: value(Cv::LAUNCH_TYPE, sale),
        sale: amounts(Cv::SALE_GROSS, Cv::SALE_DISCOUNT, Cv::SALE_NET, sale),
        instalment: value(Cv::INSTALMENT, sale),
        instalments: value(Cv::INSTALMENTS, sale),
        instalment_nsu: value(Cv::INSTALMENT_NSU, sale),
        instalment_amounts: amounts(
            Cv::INSTALMENT_GROSS,
            Cv::INSTALMENT_DISCOUNT,
            Cv::INSTALMENT_NET,
            sale,
        ),
        nseq: value(Cv::NSEQ, sale),
    }
}

// Whether the quick way passes any bytes.
fn passes(edition: u64, bytes: &[u8]) -> bool
    ensures { result ≡ passes_quick edition bytes.now }
{
    bytes.len() == Cv::WIDTH && is_right(edition, &bytes[..Cv::WIDTH])
}

// Any bytes as a record, without a line end, under an edition: as `card_record` reads it, and quicker where it is a right sale.
pub fn read(edition: u64, bytes: &[u8]) -> Reading
    ensures { result ≡ reading_of edition bytes.now }
{
    if passes(edition, bytes) {
        Reading::Cv(numbers(&bytes[..Cv::WIDTH]))
    } else {
        card_record::reading::read(edition, bytes)
    }
}
