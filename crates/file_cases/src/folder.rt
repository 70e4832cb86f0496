// The folder of a case.
use cases::print;
use files::writing;
use std::fs::File;
use std::{fs, str};

// A path as a text; where it is none the empty one, at which nothing stands and nothing can be made.
pub fn text_of(path: &[u8]) -> &str {
    str::from_utf8(path).unwrap_or("")
}

// Makes a folder.
pub fn make(rt: &HostRuntime, path: &[u8]) {
    if fs::create_dir(rt, text_of(path)).is_err() {
        print::text(b"the folder cannot be made\n");
    }
}

// Puts a file with this content where none is.
pub fn put(rt: &HostRuntime, content: &[u8], path: &[u8]) {
    if let Ok(mut file) = File::create_new(rt, text_of(path)) {
        let _written = writing::write_all(&mut file, content);
    }
}

// Removes a folder, which goes only where nothing is left in it.
pub fn leave(rt: &HostRuntime, path: &[u8]) {
    if fs::remove_dir(rt, text_of(path)).is_err() {
        print::text(b"something else is left\n");
    }
}
