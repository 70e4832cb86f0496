// The program's arguments.
ghost use Rattle.std.specs.Prelude.{◌≡◌, length};
ghost use Rattle.program.specs.Argument.{argument_of, GivenIn, ThreeIn};

use crate::mistake::Mistake;
use std::env::{Env, FillError};

// Room for every argument: Linux hands a program none of more than 131,071 bytes. The `ensures` gives only the length, which lending it as a slice needs. (Other
// rooms have functions of their own: one over the length would be called with it, as the literal is.)
pub fn room() -> [u8; 131072]
    ensures { 131072 ≡ length result }
{
    [0; 131072]
}

// The error of an argument that is longer than its room (`libc::ENAMETOOLONG`).
const NAME_TOO_LONG: u64 = 36;

// The meaning of what the system answered, with the error that it left: so many bytes. It counts none where the argument is too long, and the error tells.
// The error is a number: what may not change (`argument_of`).
pub fn argument_of(size: usize, error: u64) -> Result<usize, Mistake>
    ensures { result ≡ argument_of size error }
{
    if error == NAME_TOO_LONG {
        return Err(Mistake::TooLong);
    }
    Ok(size)
}

// How many arguments there are, with the program's own name.
pub fn count(rt: &HostRuntime) -> usize {
    let mut room = [0u8; 1];
    for number in 0..usize::MAX {
        if let Err(FillError::NotPresent) = rt.arg(number, &mut room) {
            return number;
        }
    }
    usize::MAX
}

// Reads an argument into the start of `room`, and answers how many bytes it has; one that is missing has none.
pub fn read(rt: &HostRuntime, number: usize, room: &mut [u8]) -> Result<usize, Mistake>
    ensures { GivenIn room.new result }
{
    match rt.arg(number, room) {
        Ok(size) => argument_of(size, 0),
        Err(FillError::NotPresent) => argument_of(0, 0),
        Err(FillError::TooLong) => argument_of(0, NAME_TOO_LONG),
    }
}

// Reads the arguments EDITION, or what stands in its place, FILE and OUT, each into its room.
pub fn read_three(
    rt: &HostRuntime,
    edition: &mut [u8],
    file: &mut [u8],
    out: &mut [u8],
) -> Result<(usize, usize, usize), Mistake>
    ensures { ThreeIn edition.new file.new out.new result }
{
    let first = read(rt, 1, edition)?;
    let second = read(rt, 2, file)?;
    let third = read(rt, 3, out)?;
    Ok((first, second, third))
}
