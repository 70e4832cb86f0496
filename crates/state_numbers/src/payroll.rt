// The state of a payroll file that is given record by record as numbers, and any numbers as a state.
ghost use Rattle.std.specs.Prelude.{◌≡◌, ◌∷◌};
ghost use Rattle.answer_rows.specs.Row.{refusal_as_list};
ghost use Rattle.state_numbers.specs.PayrollState.{
  stage_number,
  stage_refusal,
  feeding_numbers,
  stage_of,
  running_of,
  progress_of,
  feeding_of,
};

use crate::refused::refusal_of;
use answer_rows::payroll::progress_row;
use payroll_file::answer::Accepted;
use payroll_run::running::{Batch, Running};
use payroll_run::stage::Stage;
use payroll_stream::feeding::Feeding;
use refusal::Progress;

// How many numbers a state is.
pub const STATE_NUMBERS: usize = 20;

// A stage's number, and its refusal's. (The stages of a card file are others, with numbers of their own.)
fn stage_numbers(stage: Stage) -> [u64; 4]
    ensures { result ≡ stage_number stage ∷ refusal_as_list (stage_refusal stage) }
{
    match stage {
        Stage::Start => [1, 0, 0, 0],
        Stage::BetweenBatches => [2, 0, 0, 0],
        Stage::InBatch => [3, 0, 0, 0],
        Stage::BehindA => [4, 0, 0, 0],
        Stage::BehindB => [5, 0, 0, 0],
        Stage::Ended => [6, 0, 0, 0],
        Stage::Refused(refusal) => [7, refusal.cause.number(), refusal.record, refusal.column],
    }
}

// The numbers of a state.
#[tactic(auto, unfolding(crate::specs::PayrollState::feeding_numbers))]
pub fn numbers(feeding: Feeding) -> [u64; STATE_NUMBERS]
    ensures { result ≡ feeding_numbers feeding }
{
    let state = feeding.state;
    let staged = stage_numbers(state.stage);
    let answer = progress_row(feeding.progress);
    [
        staged[0],
        staged[1],
        staged[2],
        staged[3],
        u64::from(state.is_return),
        state.records,
        state.batches,
        state.payments,
        state.amount,
        state.batch.records,
        state.batch.details,
        state.batch.sum,
        answer[0],
        answer[1],
        answer[2],
        answer[3],
        answer[4],
        answer[5],
        answer[6],
        answer[7],
    ]
}

// The stage of any numbers: a refusal where the first is no stage's.
#[tactic(auto, unfolding(crate::specs::PayrollState::stage_of))]
fn stage_of(numbers: &[u64; STATE_NUMBERS]) -> Stage
    ensures { result ≡ stage_of numbers.now }
{
    match numbers[0] {
        1 => Stage::Start,
        2 => Stage::BetweenBatches,
        3 => Stage::InBatch,
        4 => Stage::BehindA,
        5 => Stage::BehindB,
        6 => Stage::Ended,
        _ => Stage::Refused(refusal_of(numbers[1], numbers[2], numbers[3])),
    }
}

// The running state of any numbers.
#[tactic(auto, unfolding(crate::specs::PayrollState::running_of))]
fn running_of(numbers: &[u64; STATE_NUMBERS]) -> Running
    ensures { result ≡ running_of numbers.now }
{
    Running {
        stage: stage_of(numbers),
        is_return: numbers[4] != 0,
        records: numbers[5],
        batches: numbers[6],
        payments: numbers[7],
        amount: numbers[8],
        batch: Batch {
            records: numbers[9],
            details: numbers[10],
            sum: numbers[11],
        },
    }
}

// The answer that stands behind it: accepted, refused, or none yet.
#[tactic(auto, unfolding(crate::specs::PayrollState::progress_of))]
fn progress_of(numbers: &[u64; STATE_NUMBERS]) -> Progress<Accepted>
    ensures { result ≡ progress_of numbers.now }
{
    if numbers[19] != 0 {
        return Some(Ok(Accepted {
            records: numbers[15],
            batches: numbers[16],
            payments: numbers[17],
            amount: numbers[18],
        }));
    }
    if numbers[12] != 0 {
        return Some(Err(refusal_of(numbers[12], numbers[13], numbers[14])));
    }
    None
}

// The state of any numbers.
pub fn feeding_of(numbers: &[u64; STATE_NUMBERS]) -> Feeding
    ensures { result ≡ feeding_of numbers.now }
{
    Feeding {
        state: running_of(numbers),
        progress: progress_of(numbers),
    }
}
