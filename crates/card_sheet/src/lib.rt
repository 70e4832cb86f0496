// The day sheet of a card file.
#![tactic(auto)]

ghost use Rattle.std.specs.Prelude.{◌≡◌};
ghost use Rattle.card_sheet.specs.SheetOf.{sheet_from, SheetOf};

use card_run::answer::{Accepted, CardAnswer};
use day_sheet::layout::WIDTH_2;
use sheet_numbers::sheet::{Heading, Sheet};

// The split of a file's sales is known.
const KNOWN: u64 = 1;

// The sheet of an accepted file: its numbers but the count of records and the adjustments, and the edition.
pub fn sheet_from(edition: u64, numbers: Accepted) -> Sheet
    ensures { result ≡ sheet_from edition numbers }
{
    Sheet::Version2 {
        heading: Heading {
            edition,
            date: numbers.date,
            movement: numbers.movement,
            batches: numbers.batches,
        },
        split: KNOWN,
        sets: numbers.totals,
    }
}

// Writes the day sheet of an accepted file into the first 81 bytes of the output; refused, it changes nothing.
#[tactic(auto, using(crate::proofs::Answers::written), unfolding(crate::specs::SheetOf::sheet_into))]
pub fn sheet_of(edition: u64, file: &[u8], out: &mut [u8]) -> CardAnswer
    ensures { SheetOf edition file.now out.old result out.new }
{
    let answer = card_file::room::check_with_room(edition, file, WIDTH_2, out.len());
    if let Some(Ok(numbers)) = answer {
        // It is written: the numbers of an accepted file are allowed, and there is room.
        let _ = day_sheet::writer::write(sheet_from(edition, numbers), out);
    }
    answer
}
