// Which bytes a part may hold.
ghost use Rattle.std.specs.Prelude.{◌≡◌, ◌<◌, ◌/◌, IfSome, length, not};
ghost use Rattle.std.specs.List.{position_from, take_while};
ghost use Rattle.std.specs.Simd.{first_chunks};
ghost use Rattle.text.specs.Alphabet.{allowed, first_stray, holds_only};

// The kinds of part, by the bytes that they may hold.
#[derive(Clone, Copy)]
pub enum Alphabet {
    // N of a card file, dates, times, amounts: 0 to 9.
    Digits,
    // AN of a card file: 32 to 126, and 160 to 255 for letters with accents.
    CardText,
    // 32 to 126.
    PlainAscii,
    // A card number, of which places may be hidden.
    DigitsAndStars,
}

// Whether a part of this alphabet may hold this byte.
#[tactic(auto, using(std::proofs::lemmas::Bool::Decides::nat_tests), unfolding(crate::specs::Alphabet::allowed))]
pub fn allows(alphabet: Alphabet, byte: u8) -> bool
    ensures { result ≡ allowed alphabet byte }
{
    match alphabet {
        Alphabet::Digits => byte.is_ascii_digit(),
        Alphabet::CardText => matches!(byte, b' '..=b'~' | 160..=255),
        Alphabet::PlainAscii => matches!(byte, b' '..=b'~'),
        Alphabet::DigitsAndStars => byte == b'*' || byte.is_ascii_digit(),
    }
}

// Whether every byte is of this alphabet. There is no way out before the end, so that the machine can look at many bytes at once.
#[tactic(auto, using(crate::proofs::Strays::stained, crate::proofs::Strays::pure_on, crate::proofs::Strays::pure_end))]
pub fn holds_only(alphabet: Alphabet, part: &[u8]) -> bool
    ensures { result ≡ holds_only alphabet part.now }
{
    let mut only = true;
    for &byte in part {
        if !allows(alphabet, byte) {
            only = false;
        }
    }
    only
}

// How many bytes are passed together where all are of the alphabet.
const BLOCK: usize = 16;

// How many blocks at the front are all of this alphabet.
fn pure_blocks(alphabet: Alphabet, part: &[u8]) -> usize
    ensures { result ≡ length (take_while (holds_only alphabet) (first_chunks 16 (length part.now / 16) part.now)) }
{
    let (blocks, _) = part.as_chunks::<BLOCK>();
    blocks
        .iter()
        .take_while(|block| holds_only(alphabet, *block))
        .count()
}

// The first place whose byte is not of this alphabet, looked for byte by byte.
fn stray_of(alphabet: Alphabet, part: &[u8]) -> Option<usize>
    ensures place { result ≡ position_from (λ b. not (allowed alphabet b)) 0 part.now }
    ensures inside { IfSome result (λ i. i < length part.now) }
{
    part.iter().position(|&byte| !allows(alphabet, byte))
}

// The same, looked for behind the blocks that are all of this alphabet.
pub fn first_stray(alphabet: Alphabet, part: &[u8]) -> Option<usize>
    ensures { result ≡ first_stray alphabet 0 part.now }
{
    let passed = pure_blocks(alphabet, part) * BLOCK;
    stray_of(alphabet, &part[passed..]).map(|i| passed + i)
}
