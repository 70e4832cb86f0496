// One card field: whether it is well formed, its valid characters, its hidden places, and the field masked in place.
#![tactic(auto)]

ghost use Rattle.std.specs.Prelude.{◌≡◌, ◌==◌, length};
ghost use Rattle.std.specs.List.{take_while};
ghost use Rattle.text.specs.Part.{PartOf};
ghost use Rattle.pan.specs.CardField.{well_formed, leading_zeros, valid_characters};
ghost use Rattle.pan.specs.HiddenPlaces.{shown_in_front, shown_at_end, hidden_places};
ghost use Rattle.pan.specs.Masked.{masked};

use text::alphabet::Alphabet;

// The width of a card field.
pub const WIDTH: usize = 19;

// "With 16 or more, the first six and last four stay; with 13 to 15, the first four and last four stay."
const LONG: usize = 16;

const FRONT_OF_LONG: usize = 6;

const SHORT: usize = 13;

const FRONT_OF_SHORT: usize = 4;

const LAST: usize = 4;

// The places from `from` up to, and without, `to`.
#[derive(Clone, Copy, Default)]
pub struct Places {
    pub from: usize,
    pub to: usize,
}

// Whether a field is a card's: 19 bytes, digits and stars only.
#[tactic(auto, using(std::proofs::lemmas::Bool::Decides::nat_tests), unfolding(crate::specs::CardField::well_formed))]
pub fn well_formed(field: &[u8]) -> bool
    ensures { result ≡ well_formed field.now }
{
    field.len() == WIDTH && text::alphabet::holds_only(Alphabet::DigitsAndStars, field)
}

// How many zeros stand before the first other character.
fn leading_zeros(field: &[u8]) -> usize
    ensures { result ≡ length (take_while (λ b. b == 48) field.now) }
{
    field.iter().take_while(|byte| **byte == b'0').count()
}

// The characters after the leading zeros, stars included.
#[tactic(auto, using(crate::proofs::Zeros::within, crate::proofs::Zeros::taken))]
pub fn valid_characters(field: &[u8]) -> &[u8]
    ensures { PartOf field.entry (leading_zeros field.now) (valid_characters field.now) result }
{
    let zeros = leading_zeros(field);
    &field[zeros..]
}

// Of `valid` valid characters, how many stay in front: all, where none is hidden.
#[tactic(auto, using(std::proofs::lemmas::Bool::Decides::nat_tests))]
fn shown_in_front(valid: usize) -> usize
    ensures { result ≡ shown_in_front valid }
{
    if LONG <= valid {
        FRONT_OF_LONG
    } else if SHORT <= valid {
        FRONT_OF_SHORT
    } else {
        valid
    }
}

// And how many behind those.
#[tactic(auto, using(std::proofs::lemmas::Bool::Decides::nat_tests))]
fn shown_at_end(valid: usize) -> usize
    ensures { result ≡ shown_at_end valid }
{
    if SHORT <= valid { LAST } else { 0 }
}

// The hidden places: the valid ones but those shown in front and at the end, and none in a field that is no card's.
#[tactic(auto, using(crate::proofs::HiddenPlaces::of_unformed, crate::proofs::HiddenPlaces::placed, crate::proofs::HiddenPlaces::counted))]
pub fn hidden_places(field: &[u8]) -> Places
    ensures { result ≡ hidden_places field.now }
{
    if !well_formed(field) {
        return Places::default();
    }
    let valid = valid_characters(field).len();
    Places {
        from: WIDTH - valid + shown_in_front(valid),
        to: WIDTH - shown_at_end(valid),
    }
}

// Puts a star at each hidden place. Every other byte stays.
#[tactic(auto, using(crate::proofs::HiddenPlaces::end_inside, crate::proofs::HiddenPlaces::in_order, crate::proofs::Stars::filled))]
pub fn mask(field: &mut [u8])
    ensures { field.new ≡ masked field.old }
{
    let places = hidden_places(field);
    field[places.from..places.to].fill(b'*');
}
