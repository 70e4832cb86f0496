// The temporary name of a file that is to take another's place: in the same folder, so that a rename never goes from one disk to another.
ghost use Rattle.std.specs.Prelude.{◌-◌, ◌≤◌, ◌≡◌, length, drop};
ghost use Rattle.out_file.specs.Beside.{Named};

use crate::folder;
use wording::put;

// How many bytes stand at the end of a temporary name for chance to fill in.
pub(crate) const MARK: usize = 6;

// Room for a folder's path, `.lossivurn-` and the mark.
pub(crate) const ROOM: usize = 4113;

// Puts the temporary name with this mark for the file of this path into `name`, and answers how long it is.
pub(crate) fn put_name(path: &[u8], mark: [u8; MARK], name: &mut [u8]) -> usize
    requires { 4113 ≤ length name.old }
    ensures { Named path.now mark result name.new }
{
    let behind_folder = put::text(folder::folder_of(path), name, 0);
    let behind_front = put::text(b".lossivurn-", name, behind_folder);
    put::text(&mark, name, behind_front)
}

// The mark of a temporary name: its last bytes. A shorter name has none.
pub(crate) fn mark_of(name: &[u8]) -> [u8; MARK]
    ensures { 6 ≤ length name.now → result ≡ drop (length name.now - 6) name.now }
{
    let mut mark = [0u8; MARK];
    if name.len() < MARK {
        return mark;
    }
    let from = name.len() - MARK;
    mark.copy_from_slice(&name[from..]);
    mark
}
