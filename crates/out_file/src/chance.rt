// A file under a name whose last bytes are filled in by chance, so that no other file has it.
use crate::{beside, call};
use files::{error, opening};
use std::fs::{File, OpenOptions};
use std::os::unix::fs::OpenOptionsExt;
use std::random::RandomSource;
use std::str;

// How many names are tried.
const TRIES: usize = 100;

// The error of a name that another file has (`EEXIST`).
const TAKEN: u64 = 17;

// The characters of a mark, and how many there are.
const LETTERS: [u8; 62] = *b"ABCDEFGHIJKLMNOPQRSTUVWXYZabcdefghijklmnopqrstuvwxyz0123456789";

const COUNT: u8 = 62;

// Puts six letters by chance in the place of the last bytes of a name; a shorter name stays.
fn fill_in(rt: &HostRuntime, name: &mut [u8]) -> Result<(), u64> {
    let mut chance = [0u8; beside::MARK];
    error::numbered(rt.fill_bytes(&mut chance))?;
    if name.len() < beside::MARK {
        return Ok(());
    }
    let from = name.len() - beside::MARK;
    for (letter, byte) in name[from..].iter_mut().zip(chance) {
        *letter = LETTERS[usize::from(byte % COUNT)];
    }
    Ok(())
}

// Makes a file of this name, which its owner alone may read and write; a name that is taken is an error.
fn create_named(rt: &HostRuntime, name: &[u8]) -> Result<File, u64> {
    let text = str::from_utf8(name).map_err(|_| opening::NO_TEXT)?;
    let mut options = OpenOptions::new();
    options.write(true).create_new(true).mode(call::OWNER_ALONE);
    options
        .open(rt, text)
        .map_err(|error| error::number(&error))
}

// Makes a file of this name, of which chance fills in the last bytes.
pub(crate) fn create(rt: &HostRuntime, name: &mut [u8]) -> Result<File, u64> {
    for _ in 0..TRIES {
        fill_in(rt, name)?;
        match create_named(rt, name) {
            Ok(file) => return Ok(file),
            Err(TAKEN) => {}
            Err(error) => return Err(error),
        }
    }
    Err(TAKEN)
}
