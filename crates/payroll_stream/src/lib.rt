// A payroll file that comes in chunks of any size, or record by record: the running state by value, and one unfinished record.
#![tactic(auto)]

ghost use Rattle.std.specs.Prelude.{◌≡◌};
ghost use Rattle.payroll_stream.specs.Stream.{
  open_of,
  ran_on,
  answered_by,
  behind_end,
  taken_of,
  ended_of,
  so_far,
  answer_of,
};

use chunks::Unfinished;
use payroll_file::answer::{Accepted, PayrollAnswer};
use payroll_run::running::Running;
use payroll_run::stage::Stage;
use refusal::{Cause, Progress};

pub mod feeding;

#[derive(Clone, Copy)]
pub struct Stream {
    pub state: Running,
    pub held: Unfinished,
    pub progress: Progress<Accepted>,
}

// Takes a chunk while the file goes on.
fn run_on(state: Running, held: Unfinished, chunk: &[u8]) -> Stream
    ensures { result ≡ ran_on state held chunk.now }
{
    let (state, held) = chunks::take_chunk(state, held, chunk, payroll_file::file::take_line);
    Stream {
        state,
        held,
        progress: None,
    }
}

// The answer once bytes have come behind the end: 13 behind an accepted file, and the same refusal behind a refused one.
#[tactic(auto, unfolding(crate::specs::Stream::behind_end))]
pub(crate) fn behind_end(state: Running, answer: PayrollAnswer) -> PayrollAnswer
    ensures { result ≡ behind_end state answer }
{
    answer.and(Err(state.refusal(Cause::BytesAfterTheEnd, 0)))
}

// What the state says before the end: a refusal stands at once.
#[tactic(auto, unfolding(crate::specs::Stream::so_far))]
pub(crate) fn so_far(state: Running) -> Progress<Accepted>
    ensures { result ≡ so_far state.stage }
{
    match state.stage {
        Stage::Refused(refusal) => Some(Err(refusal)),
        Stage::Start
        | Stage::BetweenBatches
        | Stage::InBatch
        | Stage::BehindA
        | Stage::BehindB
        | Stage::Ended => None,
    }
}

impl Stream {
    // A file of which nothing has come.
    pub fn open() -> Stream
        ensures { result ≡ open_of }
    {
        Stream {
            state: Running::open(),
            held: Unfinished::none(),
            progress: None,
        }
    }

    // The same with an answer.
    fn answered(self, answer: PayrollAnswer) -> Stream
        ensures { result ≡ answered_by self answer }
    {
        Stream {
            progress: Some(answer),
            ..self
        }
    }

    // Takes the file's next bytes, as many as there are.
    #[tactic(auto, unfolding(crate::specs::Stream::taken_at, crate::specs::Stream::taken_behind_end))]
    pub fn take(self, chunk: &[u8]) -> Stream
        ensures { result ≡ taken_of self chunk.now }
    {
        match self.progress {
            None => run_on(self.state, self.held, chunk),
            Some(answer) => {
                if chunk.is_empty() {
                    return self;
                }
                self.answered(behind_end(self.state, answer))
            }
        }
    }

    // No byte comes any more.
    #[tactic(auto, unfolding(crate::specs::Stream::ended_at))]
    pub fn end(self) -> Stream
        ensures { result ≡ ended_of self }
    {
        match self.progress {
            Some(_) => self,
            None => {
                self.answered(payroll_file::file::answer_with_rest(self.state, self.held.held()))
            }
        }
    }

    // The answer so far.
    #[tactic(auto, unfolding(crate::specs::Stream::answer_at))]
    pub fn answer(self) -> Progress<Accepted>
        ensures { result ≡ answer_of self }
    {
        self.progress.or(so_far(self.state))
    }
}
