// The system calls that save a file. Each asks that the machine of `step` names it, and gives the number of the error where it went wrong.
ghost use Rattle.std.specs.Prelude.{◌≡◌, ◌⊎◌};
ghost use Rattle.out_file.specs.Driving.{Turned};

use crate::draft::Draft;
use crate::step::Step;
use crate::{beside, chance, folder};
use files::{error, opening, writing};
use std::fs::{File, Permissions};
use std::os::unix::fs::PermissionsExt;
use std::{fs, str};

// The modes of a file that its owner alone may read and write.
pub(crate) const OWNER_ALONE: u32 = 0o600;

// Gives the file of one name another.
fn rename_named(rt: &HostRuntime, name: &[u8], path: &[u8]) -> Result<(), u64> {
    let from = str::from_utf8(name).map_err(|_| opening::NO_TEXT)?;
    let to = str::from_utf8(path).map_err(|_| opening::NO_TEXT)?;
    error::numbered(fs::rename(rt, from, to))
}

// Removes the file of a name.
fn remove_named(rt: &HostRuntime, name: &[u8]) -> Result<(), u64> {
    let text = str::from_utf8(name).map_err(|_| opening::NO_TEXT)?;
    error::numbered(fs::remove_file(rt, text))
}

// Lets a file's owner alone read it and write to it.
fn narrow_file(file: &File) -> Result<(), u64> {
    error::numbered(file.set_permissions(Permissions::from_mode(OWNER_ALONE)))
}

// Writes what comes next in a file.
fn write_file(file: &File, bytes: &[u8]) -> Result<(), u64> {
    let mut writer = file;
    writing::write_all(&mut writer, bytes)
}

impl Draft {
    // The open file, or that there is none.
    fn open_file(&self) -> Result<&File, u64> {
        self.file.as_ref().ok_or(0)
    }

    // Makes the file of this temporary name, whose mark is filled in by chance.
    fn create_as(self, rt: &HostRuntime, name: &mut [u8]) -> Draft
        requires { self.step ≡ Step.Create }
        ensures { Turned self.step result.step }
    {
        let created = chance::create(rt, name);
        let mut made = self;
        made.mark = beside::mark_of(name);
        match created {
            Ok(file) => {
                made.file = Some(file);
                made.told(Ok(()))
            }
            Err(error) => made.told(Err(error)),
        }
    }

    // Makes the file under a temporary name, and moves the machine on.
    pub(crate) fn create(self, rt: &HostRuntime, path: &[u8]) -> Draft
        requires { self.step ≡ Step.Create }
        ensures { Turned self.step result.step }
    {
        let mut name = [0u8; beside::ROOM];
        let size = beside::put_name(path, self.mark, &mut name);
        self.create_as(rt, &mut name[0..size])
    }

    // Lets the file's owner alone read it and write to it.
    pub(crate) fn narrow(&self) -> Result<(), u64>
        requires { self.now.step ≡ Step.Narrow }
    {
        narrow_file(self.open_file()?)
    }

    pub(crate) fn write_on(&self, bytes: &[u8]) -> Result<(), u64>
        requires { self.now.step ≡ Step.Write }
    {
        write_file(self.open_file()?, bytes)
    }

    // Sees that all of it has reached the disk.
    pub(crate) fn store(&self) -> Result<(), u64>
        requires { self.now.step ≡ Step.Store }
    {
        error::numbered(self.open_file()?.sync_all())
    }

    // Closes the file, which is not to stay or all of which has reached the disk before: the library tells nothing of how closing went.
    pub(crate) fn close(self) -> Draft
        requires { (self.step ≡ Step.Close) ⊎ (self.step ≡ Step.Abandon) }
        ensures { Turned self.step result.step }
    {
        let closed = Draft { file: None, ..self };
        closed.told(Ok(()))
    }

    // Gives the closed file its path, in the place of what was there.
    pub(crate) fn rename(&self, rt: &HostRuntime, path: &[u8]) -> Result<(), u64>
        requires { self.now.step ≡ Step.Rename }
    {
        let mut name = [0u8; beside::ROOM];
        let size = beside::put_name(path, self.mark, &mut name);
        rename_named(rt, &name[..size], path)
    }

    // Sees that the file's new name has reached the disk.
    pub(crate) fn sync_folder(&self, rt: &HostRuntime, path: &[u8]) -> Result<(), u64>
        requires { self.now.step ≡ Step.SyncFolder }
    {
        folder::sync(rt, path)
    }

    // Removes the closed file.
    pub(crate) fn remove(&self, rt: &HostRuntime, path: &[u8]) -> Result<(), u64>
        requires { self.now.step ≡ Step.Remove }
    {
        let mut name = [0u8; beside::ROOM];
        let size = beside::put_name(path, self.mark, &mut name);
        remove_named(rt, &name[..size])
    }
}
