// The work of a program that writes what it makes of a card file.
ghost use Rattle.edition.specs.Edition.{edition_of};
ghost use Rattle.card_program.specs.Checked.{Worked};

use crate::file;
use crate::output::Output;
use card_program::outcome::Outcome;
use program::mistake::Mistake;

// Writes this output of a file to another, under the edition that these bytes state.
pub fn work(rt: &HostRuntime, output: Output, edition: &[u8], file: &[u8], out: &[u8]) -> Outcome
    ensures { Worked (edition_of edition.now) result }
{
    let number = edition::edition_of(edition).ok_or(Mistake::EditionNoNumber)?;
    file::copy(rt, output, number, file, out)
}
