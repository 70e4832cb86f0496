// Opening a file by the bytes of its name.
use crate::error;
use std::fs::File;
use std::str;

// The error of a name that is no text (`EILSEQ`): std opens no file of such a name.
pub const NO_TEXT: u64 = 84;

// Opens a file for reading, or gives the number of the system's error.
pub fn open(rt: &HostRuntime, name: &[u8]) -> Result<File, u64> {
    let text = str::from_utf8(name).map_err(|_| NO_TEXT)?;
    File::open(rt, text).map_err(|error| error::number(&error))
}
