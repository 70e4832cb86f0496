// The kinds of record that are read.
ghost use Rattle.std.specs.Prelude.{◌≡◌};
ghost use Rattle.card_record.specs.Kind.{kind_of};
ghost use Rattle.card_record.specs.Reading.{width_of};

use card_adjustment::aj::Aj;
use card_frame::a0::A0;
use card_frame::a9::A9;
use card_frame::l0::L0;
use card_frame::l9::L9;
use card_sale::cv::Cv;

#[derive(Clone, Copy)]
pub enum Kind {
    A0,
    L0,
    Cv,
    Aj,
    L9,
    A9,
}

impl Kind {
    // How many bytes a record of this kind has.
    pub fn width(self) -> usize
        ensures { result ≡ width_of self }
    {
        match self {
            Kind::A0 => A0::WIDTH,
            Kind::L0 => L0::WIDTH,
            Kind::Cv => Cv::WIDTH,
            Kind::Aj => Aj::WIDTH,
            Kind::L9 => L9::WIDTH,
            Kind::A9 => A9::WIDTH,
        }
    }
}

// The kind that a record's first two bytes name.
#[tactic(auto, using(crate::proofs::Names::two_bytes, std::proofs::lemmas::Bool::Decides::nat_tests), unfolding(crate::specs::Kind::kind_named))]
pub fn kind_of(bytes: &[u8]) -> Option<Kind>
    ensures { result ≡ kind_of bytes.now }
{
    match text::part::part_of(1, 2, bytes) {
        b"CV" => Some(Kind::Cv),
        b"AJ" => Some(Kind::Aj),
        b"L0" => Some(Kind::L0),
        b"L9" => Some(Kind::L9),
        b"A0" => Some(Kind::A0),
        b"A9" => Some(Kind::A9),
        _ => None,
    }
}
