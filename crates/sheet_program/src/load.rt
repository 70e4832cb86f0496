// A file that may be a day sheet, read whole.
ghost use Rattle.std.specs.Prelude.{length};
ghost use Rattle.sheet_program.specs.Content.{ContentWithin};

use files::{opening, reading};
use program::mistake::{Failed, Mistake};
use std::io::Read;

// One byte more than the longer sheet has, to see whether a file goes on behind it.
pub(crate) const ROOM: usize = 82;

// Loads what a reader gives into the start of the room, and answers how many bytes that is: the whole room, if the file goes on.
fn load_from<R: Read>(reader: &mut R, room: &mut [u8]) -> Result<usize, Mistake>
    ensures { ContentWithin (length room.new) result }
{
    let loaded = reading::read_all(reader, room).map_err(|error| Mistake::System(
        Failed::Read,
        error,
    ))?;
    Ok(loaded.unwrap_or(room.len()))
}

// Loads the file of a name.
pub(crate) fn load(rt: &HostRuntime, file: &[u8], room: &mut [u8]) -> Result<usize, Mistake>
    ensures { ContentWithin (length room.new) result }
{
    let mut opened = opening::open(rt, file).map_err(|error| Mistake::System(Failed::Open, error))?;
    load_from(&mut opened, room)
}
