// A card file, read in chunks: lines over `program::stream`, which reads a file of either kind. What may not change is that each is asked by its name.
ghost use Rattle.card_program.specs.Checked.{Checked};

use crate::outcome;
use crate::outcome::{CardFile, Outcome};
use card_stream::Stream;
use files::opening;
use program::mistake::{Failed, Mistake};
use program::stream;
use std::io::Read;

// Checks the card file that a reader gives, 65,536 bytes at a time.
pub fn check<R: Read>(edition: u64, reader: &mut R) -> Outcome
    ensures { Checked edition result }
{
    let mut buffer = io::large_buffer();
    let (got, stream) = stream::read_chunks::<CardFile, R>(
        Stream::open(edition),
        reader,
        &mut buffer,
    );
    outcome::outcome_at(got, stream)
}

// Checks the card file of a name.
pub fn check_file(rt: &HostRuntime, edition: u64, file: &[u8]) -> Outcome
    ensures { Checked edition result }
{
    let mut opened = opening::open(rt, file).map_err(|error| Mistake::System(Failed::Open, error))?;
    check(edition, &mut opened)
}
