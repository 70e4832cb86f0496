// Why there is no verdict, and the sentence that says so and how to go on.
ghost use Rattle.std.specs.Prelude.{◌≡◌};
ghost use Rattle.wording.specs.Put.{Puts};
ghost use Rattle.program.specs.Sentence.{arguments_of, failed_of, sentence_of};

use crate::reason;
use files::writing;
use files::writing::Standard;
use wording::put::text;

// A program that can be called wrongly: `payroll` takes any names.
#[derive(Clone, Copy)]
pub enum Program {
    Card,
    Mask,
    Sheet,
    Adjustments,
}

// What the system did not do.
#[derive(Clone, Copy)]
pub enum Failed {
    Open,
    Read,
    Write,
    // OUT is written all the same.
    Sync,
    Print,
}

// Nothing of the file's content.
#[derive(Clone, Copy)]
pub enum Mistake {
    // The program is called with another number of arguments.
    Usage(Program),
    // An argument is longer than there is room for.
    TooLong,
    EditionNoNumber,
    // Another thing than a file stands at OUT.
    OutNoFile,
    // What failed, and the number of the system's error (`files::error::number`).
    System(Failed, u64),
}

// Room for every sentence.
const ROOM: usize = 256;

// How a program is called.
fn put_arguments(program: Program, out: &mut [u8], at: usize) -> usize
    ensures { Puts (arguments_of program) out.old at result out.new }
{
    match program {
        Program::Card => text(
            b"card EDITION < FILE, or card EDITION FILE.., where EDITION is 2\n",
            out,
            at,
        ),
        Program::Mask => text(b"mask EDITION FILE OUT, where EDITION is 2\n", out, at),
        Program::Sheet => text(
            b"sheet EDITION FILE OUT, where EDITION is 2, or sheet --convert FILE OUT, or sheet FILE\n",
            out,
            at,
        ),
        Program::Adjustments => text(
            b"adjustments EDITION < FILE, or adjustments EDITION FILE OUT, where EDITION is 2\n",
            out,
            at,
        ),
    }
}

// What failed, and how to go on.
fn put_failed(failed: Failed, out: &mut [u8], at: usize) -> usize
    ensures { Puts (failed_of failed) out.old at result out.new }
{
    match failed {
        Failed::Open => text(
            b"FILE cannot be opened, so check its name and that you may read it: ",
            out,
            at,
        ),
        Failed::Read => text(
            b"the file cannot be read to its end, so give a file that can, and no folder: ",
            out,
            at,
        ),
        Failed::Write => text(
            b"OUT cannot be written, so give a file's name in a folder where you may write and there is room: ",
            out,
            at,
        ),
        Failed::Sync => text(
            b"OUT is written, but its folder cannot be synced, so see that it outlasts a power cut: ",
            out,
            at,
        ),
        Failed::Print => text(
            b"the verdict cannot be printed, so see that standard output can be written: ",
            out,
            at,
        ),
    }
}

// No `Display`: what may not change is that `put` promises each byte in the caller's buffer (`Puts`).
// Puts the sentence of a mistake behind the first `at` bytes, and answers how many bytes stand there then.
pub fn put(mistake: Mistake, out: &mut [u8], at: usize) -> usize
    ensures { Puts (sentence_of mistake) out.old at result out.new }
{
    match mistake {
        Mistake::Usage(program) => {
            let end = text(b"usage: ./lossivurn ", out, at);
            put_arguments(program, out, end)
        }
        Mistake::TooLong => text(
            b"an argument is longer than the name of a file can be: give a shorter one.\n",
            out,
            at,
        ),
        Mistake::EditionNoNumber => text(
            b"EDITION is no number: give 2 (November 2023).\n",
            out,
            at,
        ),
        Mistake::OutNoFile => text(
            b"OUT is there and no regular file: give a file's name, or one that is not there.\n",
            out,
            at,
        ),
        Mistake::System(failed, error) => {
            let end = put_failed(failed, out, at);
            reason::put(error, out, end)
        }
    }
}

// Writes a mistake's sentence, and no other text, to standard error.
fn say(rt: &HostRuntime, mistake: Mistake, sentence: &[u8])
    requires { sentence.now ≡ sentence_of mistake }
{
    let _written = writing::write_to(rt, Standard::Error, sentence);
}

// Says a mistake on standard error, by one call.
pub fn tell(rt: &HostRuntime, mistake: Mistake) {
    let mut room = [0u8; ROOM];
    let size = put(mistake, &mut room, 0);
    say(rt, mistake, &room[..size]);
}
