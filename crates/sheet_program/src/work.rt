// The work of the program `sheet` on a card file.
ghost use Rattle.edition.specs.Edition.{edition_of};
ghost use Rattle.card_program.specs.Checked.{Worked};

use crate::write;
use card_program::outcome::Outcome;
use program::mistake::Mistake;

// Writes the day sheet of a file into another, under the edition that these bytes state.
pub fn work(rt: &HostRuntime, edition: &[u8], file: &[u8], out: &[u8]) -> Outcome
    ensures { Worked (edition_of edition.now) result }
{
    let number = edition::edition_of(edition).ok_or(Mistake::EditionNoNumber)?;
    write::write(rt, number, file, out)
}
