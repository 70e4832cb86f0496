// The number of the error that a call gave.
use std::io;

// The system's number of an error; 0 where that is no number of an error. No contract can say more. It stays a number: what may not change is `sentence_of`,
// which has words for each number of the system's list and tells any other, 0 too, as it is.
pub fn number(error: &io::Error) -> u64 {
    let number = error.raw_os_error().unwrap_or(0);
    u64::try_from(number).unwrap_or(0)
}

// The same of what a call came to.
pub fn numbered(went: io::Result<()>) -> Result<(), u64> {
    went.map_err(|error| number(&error))
}
