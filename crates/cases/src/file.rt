// A whole file, read into a buffer. No contract can say which bytes are read: the promise is of the count.
ghost use Rattle.std.specs.Prelude.{◌≡◌, length};
ghost use Rattle.io.specs.Counts.{IsPrefixLen};

use crate::print;
use files::opening;
use std::os::fd::AsRawFd;

// Room for the largest file of cases. The `ensures` gives only the length, which lending it as a slice needs.
pub fn room() -> [u8; 1048576]
    ensures { 1048576 ≡ length result }
{
    [0; 1048576]
}

// Reads the file of this name into the buffer; one that cannot be opened has no bytes.
fn read(rt: &HostRuntime, path: &[u8], buffer: &mut [u8]) -> usize
    ensures { IsPrefixLen result buffer.new }
{
    match opening::open(rt, path) {
        Ok(opened) => io::read_full(opened.as_raw_fd(), buffer),
        Err(_) => 0,
    }
}

// Reads the file of this name, and answers how many bytes it has. One that cannot be read has none, and a line says so; of a longer one than there is
// room for the last case is cut short.
pub fn load(rt: &HostRuntime, path: &[u8], buffer: &mut [u8]) -> usize
    ensures { IsPrefixLen result buffer.new }
{
    let size = read(rt, path, buffer);
    if size == 0 {
        print::text(b"the cases cannot be read\n");
    }
    size
}
