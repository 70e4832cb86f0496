// The folder of a path, and its names on the disk.
ghost use Rattle.std.specs.Prelude.{◌≡◌};
ghost use Rattle.out_file.specs.Beside.{folder_size, folder_of};

use files::{error, opening};
use std::fs::File;

// The longest path that Linux takes.
pub(crate) const PATH_MAX: usize = 4096;

// The error of a file system that cannot sync a folder (`EINVAL`).
const NO_SUCH_THING: u64 = 22;

// How many bytes of a path name its folder: all up to the last '/', and with it.
fn folder_size(path: &[u8]) -> usize
    ensures { result ≡ folder_size path.now }
{
    match path.iter().rposition(|byte| *byte == b'/') {
        Some(last) => last + 1,
        None => 0,
    }
}

// The part of a path that names its folder. Of one that no path can have, as much as makes the name too long for the system, which then says so.
pub(crate) fn folder_of(path: &[u8]) -> &[u8]
    ensures { result.now ≡ folder_of path.now }
{
    let size = folder_size(path).min(PATH_MAX);
    &path[..size]
}

// Opens the folder of a path.
fn open_folder(rt: &HostRuntime, path: &[u8]) -> Result<File, u64> {
    let folder = folder_of(path);
    if folder.is_empty() {
        return opening::open(rt, b".");
    }
    opening::open(rt, folder)
}

// Sees that the names in the folder of a path have reached the disk, or gives the number of the error. Where a file system has no such thing, there is
// nothing to wait for.
pub(crate) fn sync(rt: &HostRuntime, path: &[u8]) -> Result<(), u64> {
    let folder = open_folder(rt, path)?;
    match error::numbered(folder.sync_all()) {
        Err(NO_SUCH_THING) => Ok(()),
        synced => synced,
    }
}
