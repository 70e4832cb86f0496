// The answer of a payroll file.
use refusal::Answer;

// The numbers of an accepted file; the amount is in centavos.
#[derive(Clone, Copy)]
pub struct Accepted {
    pub records: u64,
    pub batches: u64,
    pub payments: u64,
    pub amount: u64,
}

// Accepted, or refused.
pub type PayrollAnswer = Answer<Accepted>;
