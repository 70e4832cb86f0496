// Whether a part is a given text, or one byte of a given set.
ghost use Rattle.std.specs.Prelude.{◌≡◌};
ghost use Rattle.text.specs.Literal.{same_bytes, one_byte_of};

// Whether a part holds exactly the bytes of a short text: `==`, under a name that contracts and `answers` cite.
#[tactic(auto, using(crate::proofs::Literals::pair_by_pair))]
pub fn equals(part: &[u8], literal: &[u8]) -> bool
    ensures { result ≡ same_bytes part.now literal.now }
{
    part == literal
}

// Whether a part is one byte, and that byte one of a set.
#[tactic(auto, using(crate::proofs::Literals::one_byte, crate::proofs::Literals::not_one_byte))]
pub fn is_one_of(part: &[u8], set: &[u8]) -> bool
    ensures { result ≡ one_byte_of set.now part.now }
{
    match part {
        [byte] => set.contains(byte),
        _ => false,
    }
}
