// Writing to standard output and standard error, and to files.
ghost use Rattle.std.specs.Prelude.{◌≡◌};
ghost use Rattle.files.specs.Standard.{stream_of};

use crate::error;
use std::io::Write;

// The standard streams that are written to.
#[derive(Clone, Copy)]
pub enum Standard {
    Output,
    Error,
}

// Writes all of some bytes, or gives the number of the error of the first write that failed: 0 for one that took nothing.
pub fn write_all<W: Write>(writer: &mut W, bytes: &[u8]) -> Result<(), u64> {
    error::numbered(writer.write_all(bytes))
}

// A descriptor says which: 2 is standard error, and any other number standard output.
impl From<i32> for Standard {
    ghost from_gives = { λ descriptor standard. standard ≡ stream_of descriptor };

    fn from(descriptor: i32) -> Standard {
        if descriptor == 2 {
            Standard::Error
        } else {
            Standard::Output
        }
    }
}

// Writes to one of the standard streams, which may be told by its descriptor.
pub fn write_to<S: Into<Standard>>(rt: &HostRuntime, stream: S, bytes: &[u8]) -> Result<(), u64> {
    match stream.into() {
        Standard::Output => write_all(&mut rt.stdout(), bytes),
        Standard::Error => write_all(&mut rt.stderr(), bytes),
    }
}
