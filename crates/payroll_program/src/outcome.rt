// What comes of a program's work on a payroll file.
ghost use Rattle.std.specs.Prelude.{◌≡◌};
ghost use Rattle.payroll_stream.specs.Stream.{taken_of, ended_of, answer_of};
ghost use Rattle.payroll_program.specs.Outcome.{is_decided, outcome_of, outcome_at};

use files::reading::Got;
use payroll_file::answer::{Accepted, PayrollAnswer};
use payroll_stream::Stream;
use program::mistake::{Failed, Mistake};
use program::stream;
use program::stream::Judge;
use refusal::Progress;

pub type PayrollOutcome = Result<PayrollAnswer, Mistake>;

// Whether no further byte can change an answer. (What may not change is that this and `outcome_at` are asked by their names.)
pub fn is_decided(progress: Progress<Accepted>) -> bool
    ensures { result ≡ is_decided progress }
{
    progress.is_some()
}

// How a payroll file takes its chunks.
pub(crate) struct PayrollFile;

impl Judge for PayrollFile {
    type Stream = Stream;

    ghost taken_of = { taken_of };

    ghost ended_of = { ended_of };

    ghost is_decided = { λ stream. is_decided (answer_of stream) };

    fn taken(stream: Stream, chunk: &[u8]) -> Stream {
        stream.take(chunk)
    }

    fn ended(stream: Stream) -> Stream {
        stream.end()
    }

    fn decided(stream: Stream) -> bool {
        is_decided(stream.answer())
    }
}

// What comes of a file that is decided.
fn outcome_of(progress: Progress<Accepted>) -> PayrollOutcome
    ensures { result ≡ outcome_of progress }
{
    progress.ok_or(Mistake::System(Failed::Read, 0))
}

// What comes of a file of which a stream has taken all bytes so far, and of which the last read means this.
pub fn outcome_at(got: Got, stream: Stream) -> PayrollOutcome
    ensures { result ≡ outcome_at got stream }
{
    let ended = stream::at_end::<PayrollFile>(got, stream)?;
    outcome_of(ended.answer())
}
