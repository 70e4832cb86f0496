// Reading a file or standard input. No contract can say which bytes are read: the promises are of the count, and of what each answer means.
ghost use Rattle.std.specs.Prelude.{◌-◌, ◌≤◌, ◌≡◌, length};
ghost use Rattle.files.specs.Loaded.{LoadedWithin, GotWithin};
ghost use Rattle.files.specs.Reading.{got_of};

use crate::error;
use std::io::Read;

// What one read means: so many bytes, or the end; an error, which has its number, is not the end.
pub type Got = Result<Option<usize>, u64>;

// What reading a whole file answers: so many bytes, at the start of the buffer; or that it fills the buffer, and may go on. Where it cannot be read, the
// error's number.
pub type Loaded = Result<Option<usize>, u64>;

// More reads than any file needs, so that a loop of reads is counted.
pub const MOST_READS: u64 = 1_152_921_504_606_846_976;

// The meaning of what the system answered to a read into `free`, with the error that it left. A read for which there is no room says nothing of the end.
// Answer and error stay numbers, which `got_of` of `answers` holds of every one.
pub fn got_of(answer: isize, error: u64, free: &[u8]) -> Got
    ensures { result ≡ got_of answer error (length free.now) }
{
    if answer < 0 || free.is_empty() {
        return Err(error);
    }
    match io::count(answer, free) {
        0 => Ok(None),
        n => Ok(Some(n)),
    }
}

// One read.
pub fn read_some<R: Read>(reader: &mut R, free: &mut [u8]) -> Got
    ensures { GotWithin (length free.old) result }
{
    match reader.read(free) {
        Ok(size) => got_of(size as isize, 0, free),
        Err(error) => got_of(-1, error::number(&error), free),
    }
}

// One read into what is free behind the first `done` bytes.
fn read_more<R: Read>(reader: &mut R, buffer: &mut [u8], done: usize) -> Got
    requires { done ≤ length buffer.old }
    ensures { GotWithin (length buffer.old - done) result }
{
    read_some(reader, &mut buffer[done..])
}

// Reads until the end, an error, or the end of the buffer. (The library's `read_to_end` takes a `Vec` that grows with the file; here the caller's room is all.)
pub fn read_all<R: Read>(reader: &mut R, buffer: &mut [u8]) -> Loaded
    ensures { LoadedWithin (length buffer.new) result }
{
    let mut done = 0;
    while done < buffer.len() {
        match read_more(reader, buffer, done)? {
            None => return Ok(Some(done)),
            Some(n) => done += n,
        }
    }
    Ok(None)
}
