// The decisions between the system calls that save a file: the answer of the last call in, the next call out.
ghost use Rattle.std.specs.Prelude.{◌≡◌};
ghost use Rattle.out_file.specs.Saving.{next_of, if_well, after_write, is_resting};

// The next call for a file that is to take its path, or one of three ends.
#[derive(Clone, Copy)]
pub enum Step {
    // Makes it under a temporary name.
    Create,
    // Lets its owner alone read it and write to it.
    Narrow,
    Write,
    // Sees that all of it has reached the disk.
    Store,
    Close,
    // Gives it its path.
    Rename,
    // Sees that its name has reached the disk.
    SyncFolder,
    // Closes it, which is not to stay.
    Abandon,
    Remove,
    // It has its path.
    Kept,
    // It has its path, and its folder could not be synced.
    Unsynced,
    // Nothing of it stays, and what was at its path is still there.
    Gone,
}

// How the last call went.
#[derive(Clone, Copy)]
pub enum Went {
    Well,
    // Only of a write: all is written, and the file is to stay.
    Last,
    // The call failed, or the file is not to stay.
    Wrong,
}

impl Went {
    // The one step where the call went well, and the other where it did not.
    fn choose(self, good: Step, bad: Step) -> Step
        ensures { result ≡ if_well self good bad }
    {
        match self {
            Went::Well => good,
            Went::Last | Went::Wrong => bad,
        }
    }

    // The step behind a write.
    fn after_write(self) -> Step
        ensures { result ≡ after_write self }
    {
        match self {
            Went::Well => Step::Write,
            Went::Last => Step::Store,
            Went::Wrong => Step::Abandon,
        }
    }
}

impl Step {
    // The step behind this one, by how it went. An end stays.
    pub fn next(self, went: Went) -> Step
        ensures { result ≡ next_of self went }
    {
        match self {
            Step::Create => went.choose(Step::Narrow, Step::Gone),
            Step::Narrow => went.choose(Step::Write, Step::Abandon),
            Step::Write => went.after_write(),
            Step::Store => went.choose(Step::Close, Step::Abandon),
            Step::Close => went.choose(Step::Rename, Step::Remove),
            Step::Rename => went.choose(Step::SyncFolder, Step::Remove),
            Step::SyncFolder => went.choose(Step::Kept, Step::Unsynced),
            Step::Abandon => Step::Remove,
            Step::Remove => Step::Gone,
            Step::Kept | Step::Unsynced | Step::Gone => self,
        }
    }

    // Whether no call follows by itself: it waits for what is to be written, or has ended.
    pub fn is_resting(self) -> bool
        ensures { result ≡ is_resting self }
    {
        matches!(self, Step::Write | Step::Kept | Step::Unsynced | Step::Gone)
    }
}
