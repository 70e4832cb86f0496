// A card file that comes in chunks of any size: the running state by value, and one unfinished record.
#![tactic(auto)]

ghost use Rattle.std.specs.Prelude.{◌≡◌};
ghost use Rattle.card_stream.specs.Stream.{open_of, taken_of, ended_of, behind_end, answer_of};

use card_run::answer::CardAnswer;
use card_run::running::Running;
use card_run::stage::Stage;
use chunks::Unfinished;
use refusal::Cause;

#[derive(Clone, Copy)]
pub struct Stream {
    pub state: Running,
    pub held: Unfinished,
}

// What bytes that are still to be judged make of a state: behind an accepted end they are 13.
#[tactic(auto, unfolding(crate::specs::Stream::behind_end))]
fn behind_end(state: Running) -> Running
    ensures { result ≡ behind_end state.stage state }
{
    match state.stage {
        Stage::Closed => state.refused(Cause::BytesAfterTheEnd, 0),
        Stage::Refused(_) | Stage::Start | Stage::BetweenBatches | Stage::InBatch | Stage::Ended =>
            state,
    }
}

impl Stream {
    // A file of this edition, of which nothing has come.
    pub fn open(edition: u64) -> Stream
        ensures { result ≡ open_of edition }
    {
        Stream {
            state: Running::open(edition),
            held: Unfinished::none(),
        }
    }

    // Takes the file's next bytes, as many as there are.
    pub fn take(self, chunk: &[u8]) -> Stream
        ensures { result ≡ taken_of self chunk.now }
    {
        let (state, held) = chunks::take_chunk(self.state, self.held, chunk, card_file::take_line);
        Stream { state, held }
    }

    // No byte comes any more.
    pub fn end(self) -> Stream
        ensures { result ≡ ended_of self }
    {
        Stream {
            state: card_file::end(self.state, self.held.held()),
            held: Unfinished::none(),
        }
    }

    // The answer so far.
    #[tactic(auto, using(crate::proofs::Ends::nothing_held, crate::proofs::Ends::bytes_held))]
    pub fn answer(self) -> CardAnswer
        ensures { result ≡ answer_of self }
    {
        if self.held.held().is_empty() {
            return self.state.answer();
        }
        behind_end(self.state).answer()
    }
}
