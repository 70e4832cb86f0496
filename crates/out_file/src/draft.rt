// A file that is written under a temporary name, and takes its own name only when all of it is there: the machine of `step` says what to call, and its
// calls are made here. What the system calls do, no contract can say.
ghost use Rattle.std.specs.Prelude.{◌≡◌, false, IsOk, is_ok};
ghost use Rattle.out_file.specs.Saving.{next_of, is_resting, is_well, went_of};
ghost use Rattle.out_file.specs.Driving.{Turned, Driven, Begun, Ended};

use crate::beside;
use crate::step::{Step, Went};
use std::fs::File;

// A file in the making: the open file, the mark in its temporary name, the call that comes next, and the number of the error that the first call that
// failed left, 0 before. A number and no `Option`: what may not change is `saved_of`, which tells the number, and so 0 too (`files::error::number`).
#[derive(Drop)]
pub struct Draft {
    pub file: Option<File>,
    pub mark: [u8; beside::MARK],
    pub step: Step,
    pub error: u64,
}

// Begins the file that is to have this path: it waits for what is to be written, or could not be made.
pub fn begin(rt: &HostRuntime, path: &[u8]) -> Draft
    ensures { Begun result.step }
{
    let draft = Draft {
        file: None,
        mark: *b"XXXXXX",
        step: Step::Create,
        error: 0,
    };
    draft.drive(rt, path)
}

impl Draft {
    // Moves the machine on.
    fn answered(self, went: Went) -> Draft
        ensures { result.step ≡ next_of self.step went }
    {
        Draft {
            step: self.step.next(went),
            ..self
        }
    }

    // Notes the number of the error that a call left, where it is the first.
    pub fn noted(self, error: u64) -> Draft
        ensures { result.step ≡ self.step }
    {
        match self.error {
            0 => Draft { error, ..self },
            _ => self,
        }
    }

    // Tells the machine whether a call went well.
    pub(crate) fn told(self, answer: Result<(), u64>) -> Draft
        ensures { result.step ≡ next_of self.step (went_of (is_ok answer)) }
    {
        match answer {
            Ok(()) => self.answered(Went::Well),
            Err(error) => self.noted(error).answered(Went::Wrong),
        }
    }

    // Makes the call that the machine names, and tells it how that went. Where it rests there is none, and it stays there. The steps are data, of which
    // `Turned` and `Driven` speak, and each call asks for its own step: closures would carry neither.
    fn turn(self, rt: &HostRuntime, path: &[u8]) -> Draft
        ensures { Turned self.step result.step }
    {
        match self.step {
            Step::Create => self.create(rt, path),
            Step::Narrow => {
                let went = self.narrow();
                self.told(went)
            }
            Step::Store => {
                let went = self.store();
                self.told(went)
            }
            Step::Close | Step::Abandon => self.close(),
            Step::Rename => {
                let went = self.rename(rt, path);
                self.told(went)
            }
            Step::SyncFolder => {
                let went = self.sync_folder(rt, path);
                self.told(went)
            }
            Step::Remove => {
                let went = self.remove(rt, path);
                self.told(went)
            }
            _ => self.answered(Went::Well),
        }
    }

    // Whether the machine rests.
    fn is_resting(&self) -> bool
        ensures { result ≡ is_resting self.now.step }
    {
        self.step.is_resting()
    }

    // Makes the machine's calls until it rests. (A `while`: there is nothing to go over, and the measure is the machine's.)
    fn drive(self, rt: &HostRuntime, path: &[u8]) -> Draft
        ensures { Driven result.step self.step }
    {
        let mut draft = self;
        while !draft.is_resting() {
            draft = draft.turn(rt, path);
        }
        draft
    }

    // Writes what comes next in the file, or gives the number of the error where not all of it was written: the caller notes it. A file that does not wait
    // for it is not written to.
    pub fn write(&self, bytes: &[u8]) -> Result<(), u64>
        ensures { IsOk result → self.now.step ≡ Step.Write }
    {
        match self.step {
            Step::Write => self.write_on(bytes),
            _ => Err(0),
        }
    }

    // Gives the machine the answer that ends the writes, and makes the calls that follow.
    fn end(self, rt: &HostRuntime, went: Went, path: &[u8]) -> Draft
        requires { is_well went ≡ false }
        ensures { Ended (next_of self.step went) result.step }
    {
        self.answered(went).drive(rt, path)
    }

    // Ends the file, all of which is written, and which is to take its path.
    pub fn keep(self, rt: &HostRuntime, path: &[u8]) -> Draft
        ensures { Ended (next_of self.step Went.Last) result.step }
    {
        self.end(rt, Went::Last, path)
    }

    // Ends the file, of which nothing is to stay.
    pub fn discard(self, rt: &HostRuntime, path: &[u8]) -> Draft
        ensures { Ended (next_of self.step Went.Wrong) result.step }
    {
        self.end(rt, Went::Wrong, path)
    }
}
