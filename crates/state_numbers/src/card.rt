// The running state of a card file as numbers, and any numbers as a state.
ghost use Rattle.std.specs.Prelude.{◌≡◌, ◌∷◌};
ghost use Rattle.answer_rows.specs.Row.{refusal_as_list};
ghost use Rattle.state_numbers.specs.CardState.{stage_number, stage_refusal, state_numbers, stage_of, numbers_from, state_of};

use crate::refused::refusal_of;
use card_run::adjusted::Adjusted;
use card_run::answer::Accepted;
use card_run::batch::OpenBatch;
use card_run::running::Running;
use card_run::stage::Stage;
use day_sheet::row::totals_from;
use totals::two_sets::TwoSets;

// How many numbers a state is.
pub const STATE_NUMBERS: usize = 24;

// A stage's number, and its refusal's. (The stages of a payroll file are others, with numbers of their own.)
fn stage_numbers(stage: Stage) -> [u64; 4]
    ensures { result ≡ stage_number stage ∷ refusal_as_list (stage_refusal stage) }
{
    match stage {
        Stage::Start => [1, 0, 0, 0],
        Stage::BetweenBatches => [2, 0, 0, 0],
        Stage::InBatch => [3, 0, 0, 0],
        Stage::Ended => [4, 0, 0, 0],
        Stage::Closed => [5, 0, 0, 0],
        Stage::Refused(refusal) => [6, refusal.cause.number(), refusal.record, refusal.column],
    }
}

// The numbers of a state.
#[tactic(auto, unfolding(crate::specs::CardState::state_numbers))]
pub fn numbers(state: Running) -> [u64; STATE_NUMBERS]
    ensures { result ≡ state_numbers state }
{
    let file = state.numbers;
    let forecast = file.totals.forecast;
    let settled = file.totals.settled;
    let staged = stage_numbers(state.stage);
    [
        staged[0],
        staged[1],
        staged[2],
        staged[3],
        state.edition,
        file.date,
        file.movement,
        file.records,
        file.batches,
        forecast.sales,
        forecast.amounts.gross,
        forecast.amounts.discount,
        forecast.amounts.net,
        settled.sales,
        settled.amounts.gross,
        settled.amounts.discount,
        settled.amounts.net,
        file.credits.count,
        file.credits.net,
        file.debits.count,
        file.debits.net,
        state.batch.transactions,
        state.batch.added,
        state.batch.taken,
    ]
}

// The stage of any numbers: a refusal where the first is no stage's.
#[tactic(auto, unfolding(crate::specs::CardState::stage_of))]
fn stage_of(numbers: &[u64; STATE_NUMBERS]) -> Stage
    ensures { result ≡ stage_of numbers.now }
{
    match numbers[0] {
        1 => Stage::Start,
        2 => Stage::BetweenBatches,
        3 => Stage::InBatch,
        4 => Stage::Ended,
        5 => Stage::Closed,
        _ => Stage::Refused(refusal_of(numbers[1], numbers[2], numbers[3])),
    }
}

// The file's numbers so far.
fn file_of(numbers: &[u64; STATE_NUMBERS]) -> Accepted
    ensures { result ≡ numbers_from numbers.now }
{
    Accepted {
        date: numbers[5],
        movement: numbers[6],
        records: numbers[7],
        batches: numbers[8],
        totals: TwoSets {
            forecast: totals_from(9, numbers),
            settled: totals_from(13, numbers),
        },
        credits: Adjusted {
            count: numbers[17],
            net: numbers[18],
        },
        debits: Adjusted {
            count: numbers[19],
            net: numbers[20],
        },
    }
}

// The state of any numbers.
#[tactic(auto, unfolding(crate::specs::CardState::state_of))]
pub fn state_of(numbers: &[u64; STATE_NUMBERS]) -> Running
    ensures { result ≡ state_of numbers.now }
{
    Running {
        stage: stage_of(numbers),
        edition: numbers[4],
        numbers: file_of(numbers),
        batch: OpenBatch {
            transactions: numbers[21],
            added: numbers[22],
            taken: numbers[23],
        },
    }
}
