// What stands already at the path of a file that is to be written. What the system says of it, no contract can say.
use crate::folder::PATH_MAX;
use std::{fs, str};

// Whether a path is a link, wherever it leads.
fn is_link(rt: &HostRuntime, path: &str) -> bool {
    fs::symlink_metadata(rt, path).is_ok_and(|known| known.is_symlink())
}

// Whether a file may take this path: nothing stands there, or a regular file does, or a link that leads to one. At a path that is too long, or no text,
// nothing stands.
pub fn is_free(rt: &HostRuntime, path: &[u8]) -> bool {
    if path.len() >= PATH_MAX {
        return true;
    }
    let Ok(text) = str::from_utf8(path) else {
        return true;
    };
    match fs::metadata(rt, text) {
        Ok(known) => known.is_file(),
        Err(_) => !is_link(rt, text),
    }
}
