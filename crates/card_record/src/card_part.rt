// Where a record's card stands.
ghost use Rattle.std.specs.Prelude.{◌≡◌};
ghost use Rattle.card_record.specs.CardPart.{card_part};
ghost use Rattle.card_record.specs.Reading.{card_of};

use crate::kind::{Kind, kind_of};
use card_adjustment::aj::Aj;
use card_sale::cv::Cv;

// The place, from 0, at which the card's 19 bytes begin in a record of a kind: here alone it stands which kinds have a card, and where.
fn card_of(kind: Kind) -> Option<usize>
    ensures { result ≡ card_of kind }
{
    match kind {
        Kind::Cv => Some(Cv::CARD.0 - 1),
        Kind::Aj => Some(Aj::CARD.0 - 1),
        Kind::A0 | Kind::L0 | Kind::L9 | Kind::A9 => None,
    }
}

// The place of a record's card: its kind's, where the record has its kind's width. Only a kind with a card is asked for its width, which is quicker:
// masking looks at every record.
#[tactic(auto, using(crate::proofs::CardParts::no_card_lem), unfolding(crate::specs::CardPart::card_part_found))]
pub fn card_part(bytes: &[u8]) -> Option<usize>
    ensures { result ≡ card_part bytes.now }
{
    let kind = kind_of(bytes)?;
    let from = card_of(kind)?;
    if bytes.len() == kind.width() {
        Some(from)
    } else {
        None
    }
}
