// The work of the program `card`.
ghost use Rattle.edition.specs.Edition.{edition_of};
ghost use Rattle.card_program.specs.Checked.{Worked};

use crate::check;
use crate::outcome::Outcome;
use program::mistake::Mistake;
use std::io::Read;

// Checks the file that a reader gives, under the edition that these bytes state.
pub fn work<R: Read>(edition: &[u8], reader: &mut R) -> Outcome
    ensures { Worked (edition_of edition.now) result }
{
    let number = edition::edition_of(edition).ok_or(Mistake::EditionNoNumber)?;
    check::check(number, reader)
}
