// Many files in one call: a line for each as it is checked, and the tally of all.
ghost use Rattle.std.specs.Prelude.{ℕ, ◌-◌, ◌≤◌, ◌≡◌, List, length};
ghost use Rattle.wording.specs.Put.{Puts};
ghost use Rattle.file_list.specs.Line.{file_line};
ghost use Rattle.file_list.specs.Listed.{ListedAll};
ghost use Rattle.file_list.specs.declared.tally.Said.{Said};

use crate::line;
use crate::listed::Listed;
use crate::tally::{Said, Tally};
use files::writing;
use files::writing::Standard;
use program::argument;
use program::mistake::{Failed, Mistake};

// Files of one kind: how one is checked, and what is said of it.
pub trait Files {
    type Outcome: Copy;

    ghost said_of: { Self.Outcome → Said };

    ghost words_of: { Self.Outcome → List ℕ };

    ghost Checked: { Self → Self.Outcome → Type 0 };

    // Checks the file of a name.
    fn check(&self, rt: &HostRuntime, name: &[u8]) -> Self::Outcome
        ensures { Checked self.now result };

    // What is said of a file, for the tally.
    fn said(outcome: Self::Outcome) -> Said
        ensures { result ≡ said_of outcome };

    // Puts the words of a file's verdict behind the first `at` bytes, and answers how many bytes stand there then.
    fn put_words(outcome: Self::Outcome, out: &mut [u8], at: usize) -> usize
        ensures puts { Puts (words_of outcome) out.old at result out.new }
        ensures short { length (words_of outcome) ≤ 511 };
}

// Room for the words of every outcome, as much as a line has for them.
const WORDS: usize = 511;

// Writes a file's line, and no other text. Nothing else here writes.
fn write_line<F: Files>(
    rt: &HostRuntime,
    outcome: F::Outcome,
    name: &[u8],
    line: &[u8],
) -> Result<(), u64>
    requires { line.now ≡ file_line (F.words_of outcome) name.now }
{
    writing::write_to(rt, Standard::Output, line)
}

// Prints a file's line by one call, and gives the number of the error where it is not written.
fn print_line<F: Files>(rt: &HostRuntime, outcome: F::Outcome, name: &[u8]) -> Result<(), u64>
    requires { length name.now ≤ 131072 }
{
    let mut words = [0u8; WORDS];
    let size = F::put_words(outcome, &mut words, 0);
    let mut room = line::room();
    let end = line::put_line(&words[..size], name, &mut room, 0);
    write_line::<F>(rt, outcome, name, &room[..end])
}

// Checks the files that the arguments name, each name read into `name`.
fn list_by<F: Files>(
    rt: &HostRuntime,
    files: &F,
    first: usize,
    count: usize,
    name: &mut [u8],
) -> Listed
    requires { length name.old ≤ 131072 }
    ensures { ListedAll F.said_of (F.Checked files.now) (count - first) result }
{
    let mut tally = Tally::none();
    for number in first..count {
        let size = argument::read(rt, number, name)?;
        let outcome = files.check(rt, &name[..size]);
        print_line::<F>(rt, outcome, &name[..size]).map_err(|error| Mistake::System(
            Failed::Print,
            error,
        ))?;
        tally = tally.with(F::said(outcome));
    }
    Ok(tally)
}

// Lists the files that the arguments name from the first such one on, where there are `count` arguments with the program's own name.
pub fn list<F: Files>(rt: &HostRuntime, files: &F, first: usize, count: usize) -> Listed
    ensures { ListedAll F.said_of (F.Checked files.now) (count - first) result }
{
    let mut name = argument::room();
    list_by(rt, files, first, count, &mut name)
}
