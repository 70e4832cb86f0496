// What reading a record's bytes answers. It looks at one record alone, and keeps nothing of the card.
ghost use Rattle.std.specs.Prelude.{◌≡◌};
ghost use Rattle.refusal.specs.Rules.{first_broken};
ghost use Rattle.card_record.specs.Reading.{kind_rules, right_reading, reading_of};

use crate::kind::{Kind, kind_of};
use card_adjustment::aj::Aj;
use card_frame::a0::A0;
use card_frame::a9::A9;
use card_frame::l0::L0;
use card_frame::l9::L9;
use card_sale::cv::Cv;
use refusal::Fault;

// What reading answers. No `Result`: a record that is unknown or faulty is judged at its place like any other, and its fault comes behind that of the place.
#[derive(Clone, Copy)]
pub enum Reading {
    // A kind that is not read.
    Unknown,
    // A known kind, and the first fault among its width and its fields.
    Faulty(Kind, Fault),
    // The numbers of a record whose width and fields are right.
    A0(A0),
    L0(L0),
    Cv(Cv),
    Aj(Aj),
    L9(L9),
    A9(A9),
}

// The first fault of the bytes as a record of this kind.
fn fault_of(kind: Kind, edition: u64, bytes: &[u8]) -> Result<(), Fault>
    ensures { result ≡ first_broken (kind_rules kind edition bytes.now) }
{
    match kind {
        Kind::A0 => A0::fault(edition, bytes),
        Kind::L0 => L0::fault(edition, bytes),
        Kind::Cv => Cv::fault(edition, bytes),
        Kind::Aj => Aj::fault(edition, bytes),
        Kind::L9 => L9::fault(edition, bytes),
        Kind::A9 => A9::fault(edition, bytes),
    }
}

// The numbers of the bytes as a record of this kind.
#[tactic(auto, unfolding(crate::specs::Reading::right_reading))]
fn numbers_of(kind: Kind, bytes: &[u8]) -> Reading
    ensures { result ≡ right_reading kind bytes.now }
{
    match kind {
        Kind::A0 => Reading::A0(A0::read(bytes)),
        Kind::L0 => Reading::L0(L0::read(bytes)),
        Kind::Cv => Reading::Cv(Cv::read(bytes)),
        Kind::Aj => Reading::Aj(Aj::read(bytes)),
        Kind::L9 => Reading::L9(L9::read(bytes)),
        Kind::A9 => Reading::A9(A9::read(bytes)),
    }
}

// Any bytes as a record, without a line end, under an edition.
#[tactic(auto, unfolding(crate::specs::Reading::read_found, crate::specs::Reading::judged_as))]
pub fn read(edition: u64, bytes: &[u8]) -> Reading
    ensures { result ≡ reading_of edition bytes.now }
{
    let Some(kind) = kind_of(bytes) else {
        return Reading::Unknown;
    };
    match fault_of(kind, edition, bytes) {
        Ok(()) => numbers_of(kind, bytes),
        Err(fault) => Reading::Faulty(kind, fault),
    }
}
