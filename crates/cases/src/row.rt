// Answers as rows of numbers, by which two of them are compared.
ghost use Rattle.std.specs.Prelude.{◌≡◌};
ghost use Rattle.cases.specs.CardNumbers.{card_numbers};
ghost use Rattle.text.specs.Literal.{same_bytes};

use card_run::answer::CardAnswer;

// How many numbers document 01's row of a card file has.
pub const CARD_NUMBERS: usize = 19;

// The row of a card file's answer, which `answer_rows` tells with one number more.
pub fn card_row(answer: CardAnswer) -> [u64; CARD_NUMBERS]
    ensures { result ≡ card_numbers answer }
{
    let row = answer_rows::card::card_row(answer);
    let mut numbers = [0; CARD_NUMBERS];
    numbers.copy_from_slice(&row[..CARD_NUMBERS]);
    numbers
}

// Whether two rows are the same: `==`, under a name that `answers` cites.
#[tactic(auto, using(text::proofs::Literals::pair_by_pair))]
pub fn same(a: &[u64], b: &[u64]) -> bool
    ensures { result ≡ same_bytes a.now b.now }
{
    a == b
}
