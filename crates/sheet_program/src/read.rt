// A day sheet that is read from a file.
ghost use Rattle.sheet_program.specs.SheetRead.{SheetChecked};

use crate::load;
use day_sheet::reader;
use program::mistake::Mistake;
use refusal::Answer;
use sheet_numbers::sheet::Sheet;

pub type SheetOutcome = Result<Answer<Sheet>, Mistake>;

// Reads the day sheet of a name.
pub fn read(rt: &HostRuntime, file: &[u8]) -> SheetOutcome
    ensures { SheetChecked result }
{
    let mut room = [0u8; load::ROOM];
    let size = load::load(rt, file, &mut room)?;
    Ok(reader::read(&room[..size]))
}
