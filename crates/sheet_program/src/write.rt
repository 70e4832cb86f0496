// The day sheet of a card file, from file to file.
ghost use Rattle.std.specs.Prelude.{◌≡◌, Ok};
ghost use Rattle.day_sheet.specs.Sheet.{bytes_of};
ghost use Rattle.card_sheet.specs.SheetOf.{sheet_from};
ghost use Rattle.card_program.specs.Checked.{Checked};
ghost use Rattle.out_file.specs.Saved.{TellsOfFiles};

use crate::save;
use card_program::check;
use card_program::outcome::Outcome;
use card_run::answer::{Accepted, CardAnswer};
use day_sheet::{layout, writer};
use out_file::place;
use program::mistake::{Failed, Mistake};

// Saves the sheet of a file's numbers, and no other.
fn save_sheet(
    rt: &HostRuntime,
    edition: u64,
    numbers: Accepted,
    bytes: &[u8],
    out: &[u8],
) -> Result<(), Mistake>
    requires { bytes.now ≡ bytes_of (sheet_from edition numbers) }
    ensures { TellsOfFiles result }
{
    save::save(rt, card_sheet::sheet_from(edition, numbers), bytes, out)
}

// Writes a file's numbers as a sheet into the file of this name.
fn save_numbers(
    rt: &HostRuntime,
    edition: u64,
    numbers: Accepted,
    out: &[u8],
) -> Result<(), Mistake>
    ensures { TellsOfFiles result }
{
    let mut bytes = [0u8; layout::WIDTH_2];
    writer::write(card_sheet::sheet_from(edition, numbers), &mut bytes).map_err(|_| Mistake::System(
        Failed::Write,
        0,
    ))?;
    save_sheet(rt, edition, numbers, &bytes, out)
}

// Saves the sheet of an accepted file; any other answer has none.
fn save_answer(rt: &HostRuntime, edition: u64, answer: CardAnswer, out: &[u8]) -> Outcome
    ensures { Checked edition (Ok answer) → Checked edition result }
{
    if let Some(Ok(numbers)) = answer {
        save_numbers(rt, edition, numbers, out)?;
    }
    Ok(answer)
}

// Checks the card file of a name, and saves its sheet.
fn write_file(rt: &HostRuntime, edition: u64, file: &[u8], out: &[u8]) -> Outcome
    ensures { Checked edition result }
{
    let answer = check::check_file(rt, edition, file)?;
    save_answer(rt, edition, answer, out)
}

// Writes the day sheet of an accepted file. Of any other there is no sheet, and what was at `out` is still there.
pub(crate) fn write(rt: &HostRuntime, edition: u64, file: &[u8], out: &[u8]) -> Outcome
    ensures { Checked edition result }
{
    if !place::is_free(rt, out) {
        return Err(Mistake::OutNoFile);
    }
    write_file(rt, edition, file, out)
}
