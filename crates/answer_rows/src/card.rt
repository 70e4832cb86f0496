// The row of a card file's answer.
ghost use Rattle.std.specs.Prelude.{◌≡◌, Some, Ok};
ghost use Rattle.answer_rows.specs.Card.{card_numbers};

use crate::refused::refused_row;
use card_run::answer::{Accepted, CardAnswer};

pub const CARD_NUMBERS: usize = 20;

#[tactic(auto, unfolding(card_run::specs::Answer::card_file_row))]
fn accepted_row(accepted: Accepted) -> [u64; CARD_NUMBERS]
    ensures { result ≡ card_numbers (Some (Ok accepted)) }
{
    let forecast = accepted.totals.forecast;
    let settled = accepted.totals.settled;
    [
        0,
        0,
        0,
        accepted.date,
        accepted.movement,
        accepted.records,
        accepted.batches,
        forecast.sales,
        forecast.amounts.gross,
        forecast.amounts.discount,
        forecast.amounts.net,
        settled.sales,
        settled.amounts.gross,
        settled.amounts.discount,
        settled.amounts.net,
        accepted.credits.count,
        accepted.credits.net,
        accepted.debits.count,
        accepted.debits.net,
        1,
    ]
}

// The row of an answer; zeros where the file goes on.
#[tactic(auto, unfolding(card_run::specs::Answer::card_file_row))]
pub fn card_row(answer: CardAnswer) -> [u64; CARD_NUMBERS]
    ensures { result ≡ card_numbers answer }
{
    match answer {
        None => [0; CARD_NUMBERS],
        Some(Ok(accepted)) => accepted_row(accepted),
        Some(Err(refusal)) => refused_row(refusal),
    }
}
