// What is made of an accepted card file, from file to file.
ghost use Rattle.std.specs.Prelude.{ℕ, ◌≡◌, true, false};
ghost use Rattle.card_copy.specs.Copying.{Filled};
ghost use Rattle.card_program.specs.Checked.{Checked};
ghost use Rattle.card_program.specs.Outcome.{is_accepted};

use crate::copy::Copying;
use crate::output::Output;
use card_program::outcome;
use card_program::outcome::Outcome;
use card_stream::Stream;
use files::{opening, reading};
use out_file::draft::Draft;
use out_file::step::Step;
use out_file::{draft, place};
use program::mistake::{Failed, Mistake};
use std::io::Read;

// Gives an accepted file's copy its name.
fn keep_copy(rt: &HostRuntime, outcome: Outcome, draft: Draft, out: &[u8]) -> Outcome
    requires { is_accepted outcome ≡ true }
    ensures { (edition : ℕ) → Checked edition outcome → Checked edition result }
{
    draft.keep(rt, out).saved()?;
    outcome
}

// Removes the copy of a file that is not accepted.
fn drop_copy(rt: &HostRuntime, outcome: Outcome, draft: Draft, out: &[u8])
    requires { is_accepted outcome ≡ false }
{
    draft.discard(rt, out);
}

// Gives an accepted file's copy its name, and removes any other.
fn finish(rt: &HostRuntime, outcome: Outcome, draft: Draft, out: &[u8]) -> Outcome
    ensures { (edition : ℕ) → Checked edition outcome → Checked edition result }
{
    if outcome::is_accepted(outcome) {
        return keep_copy(rt, outcome, draft, out);
    }
    drop_copy(rt, outcome, draft, out);
    outcome
}

impl Copying {
    // Begins the copy of a file of which the first bytes are in the buffer, and fills it.
    fn copy_into<R: Read>(
        self,
        rt: &HostRuntime,
        reader: &mut R,
        out: &[u8],
        buffer: &mut [u8],
        first: usize,
    ) -> Outcome
        requires { Filled buffer.old first }
        ensures { Checked self.edition result }
    {
        let draft = draft::begin(rt, out);
        let Step::Write = draft.step else {
            return Err(Mistake::System(Failed::Write, draft.error));
        };
        let outcome = self.copy_all(reader, &draft, buffer, first);
        finish(rt, outcome, draft, out)
    }

    // Copies what a reader gives into the file of this name, which is begun only once there is something to copy.
    fn copy_from<R: Read>(
        self,
        rt: &HostRuntime,
        reader: &mut R,
        out: &[u8],
        buffer: &mut [u8],
    ) -> Outcome
        requires { Filled buffer.old 0 }
        ensures { Checked self.edition result }
    {
        let got = reading::read_some(reader, buffer);
        let Ok(Some(first)) = got else {
            return outcome::outcome_at(got, Stream::open(self.edition));
        };
        self.copy_into(rt, reader, out, buffer, first)
    }

    // Copies the file of a name, 65,536 bytes at a time, with the line that the chunk before left unfinished.
    fn copy_file(self, rt: &HostRuntime, file: &[u8], out: &[u8]) -> Outcome
        ensures { Checked self.edition result }
    {
        let mut opened = opening::open(rt, file).map_err(|error| Mistake::System(
            Failed::Open,
            error,
        ))?;
        let mut buffer = io::large_buffer();
        self.copy_from(rt, &mut opened, out, &mut buffer)
    }
}

// Writes what is made of an accepted file. Of any other there is no copy, and what was at `out` is still there.
pub(crate) fn copy(
    rt: &HostRuntime,
    output: Output,
    edition: u64,
    file: &[u8],
    out: &[u8],
) -> Outcome
    ensures { Checked edition result }
{
    if place::is_free(rt, out) {
        let copying = Copying { output, edition };
        return copying.copy_file(rt, file, out);
    }
    Err(Mistake::OutNoFile)
}
