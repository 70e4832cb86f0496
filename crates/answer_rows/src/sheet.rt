// The rows of what reading and writing a day sheet answer.
ghost use Rattle.std.specs.Prelude.{◌≡◌, Ok};
ghost use Rattle.answer_rows.specs.Sheet.{sheet_numbers, written_numbers};

use crate::refused::refused_row;
use refusal::Answer;
use sheet_numbers::sheet::Sheet;

pub const SHEET_NUMBERS: usize = 17;

pub const WRITTEN_NUMBERS: usize = 3;

// The row of a sheet: no refusal, and its numbers in the order of the layout.
#[tactic(auto, using(crate::proofs::SheetRows::of_row))]
fn read_row(sheet: Sheet) -> [u64; SHEET_NUMBERS]
    ensures { result ≡ sheet_numbers (Ok sheet) }
{
    let mut row = [0; SHEET_NUMBERS];
    row[3..].copy_from_slice(&day_sheet::row::row(sheet));
    row
}

// The row of a sheet that was read; behind a refusal zeros.
#[tactic(auto, unfolding(day_sheet::specs::Answer::read_row))]
pub fn sheet_row(answer: Answer<Sheet>) -> [u64; SHEET_NUMBERS]
    ensures { result ≡ sheet_numbers answer }
{
    match answer {
        Ok(sheet) => read_row(sheet),
        Err(refusal) => refused_row(refusal),
    }
}

// The row of what writing or converting a sheet answers: its refusal, or zeros.
#[tactic(auto, unfolding(day_sheet::specs::Answer::written_row))]
pub fn written_row(answer: Answer<()>) -> [u64; WRITTEN_NUMBERS]
    ensures { result ≡ written_numbers answer }
{
    match answer {
        Ok(()) => [0; WRITTEN_NUMBERS],
        Err(refusal) => refused_row(refusal),
    }
}
