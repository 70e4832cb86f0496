// What is told of a file that was to take its path.
ghost use Rattle.std.specs.Prelude.{◌≡◌};
ghost use Rattle.out_file.specs.Saved.{saved_of};

use crate::draft::Draft;
use crate::step::Step;
use program::mistake::{Failed, Mistake};

impl Draft {
    // Whether it has its path, or what is told where not all went well; of a file that has not come to its end, that it is not written.
    pub fn saved(self) -> Result<(), Mistake>
        ensures { result ≡ saved_of self.step self.error }
    {
        match self.step {
            Step::Kept => Ok(()),
            Step::Unsynced => Err(Mistake::System(Failed::Sync, self.error)),
            _ => Err(Mistake::System(Failed::Write, self.error)),
        }
    }
}
