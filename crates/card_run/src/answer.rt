// The answer of a card file.
use crate::adjusted::Adjusted;
use refusal::Progress;
use totals::two_sets::TwoSets;

// The numbers of an accepted file.
#[derive(Clone, Copy)]
pub struct Accepted {
    pub date: u64,
    pub movement: u64,
    pub records: u64,
    pub batches: u64,
    pub totals: TwoSets,
    pub credits: Adjusted,
    pub debits: Adjusted,
}

// None as long as nothing is refused and the file is not closed.
pub type CardAnswer = Progress<Accepted>;
