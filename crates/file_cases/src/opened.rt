// The reader of a file that may not be open: every read of one that is not fails, by the system's error for it (`EBADF`).
use files::opening;
use std::fs::File;
use std::io;
use std::io::Read;

const NOT_OPEN: i32 = 9;

#[derive(Drop)]
pub struct Opened {
    file: Option<File>,
}

impl Opened {
    // The file at a path.
    pub fn at(rt: &HostRuntime, path: &[u8]) -> Opened {
        Opened {
            file: opening::open(rt, path).ok(),
        }
    }
}

impl Read for Opened {
    fn read(&mut self, buf: &mut [u8]) -> io::Result<usize> {
        match &mut self.file {
            Some(file) => file.read(buf),
            None => Err(io::Error::from_raw_os_error(NOT_OPEN)),
        }
    }
}
