// The row of a payroll file's answer.
ghost use Rattle.std.specs.Prelude.{◌≡◌};
ghost use Rattle.answer_rows.specs.Payroll.{payroll_numbers, progress_numbers};

use crate::refused::refused_row;
use payroll_file::answer::{Accepted, PayrollAnswer};
use refusal::Progress;

pub const PAYROLL_NUMBERS: usize = 8;

// The row of an answer.
#[tactic(auto, unfolding(payroll_file::specs::Answer::payroll_row))]
pub fn payroll_row(answer: PayrollAnswer) -> [u64; PAYROLL_NUMBERS]
    ensures { result ≡ payroll_numbers answer }
{
    match answer {
        Ok(a) => [0, 0, 0, a.records, a.batches, a.payments, a.amount, 1],
        Err(refusal) => refused_row(refusal),
    }
}

// The row of the answer so far; zeros where the file goes on.
#[tactic(auto, unfolding(payroll_stream::specs::Stream::progress_row))]
pub fn progress_row(progress: Progress<Accepted>) -> [u64; PAYROLL_NUMBERS]
    ensures { result ≡ progress_numbers progress }
{
    match progress {
        None => [0; PAYROLL_NUMBERS],
        Some(answer) => payroll_row(answer),
    }
}
