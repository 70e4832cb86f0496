// What comes of a program's work on a card file.
ghost use Rattle.std.specs.Prelude.{◌≡◌};
ghost use Rattle.card_stream.specs.Stream.{taken_of, ended_of, answer_of};
ghost use Rattle.card_program.specs.Outcome.{is_decided, is_accepted, outcome_at};

use card_run::answer::CardAnswer;
use card_stream::Stream;
use files::reading::Got;
use program::mistake::Mistake;
use program::stream;
use program::stream::Judge;

pub type Outcome = Result<CardAnswer, Mistake>;

// Whether no further byte can change an answer. (What may not change is that this and `outcome_at` are asked by their names.)
pub fn is_decided(answer: CardAnswer) -> bool
    ensures { result ≡ is_decided answer }
{
    answer.is_some()
}

// Whether a file was accepted to its end.
pub fn is_accepted(outcome: Outcome) -> bool
    ensures { result ≡ is_accepted outcome }
{
    matches!(outcome, Ok(Some(Ok(_))))
}

// How a card file takes its chunks.
pub(crate) struct CardFile;

impl Judge for CardFile {
    type Stream = Stream;

    ghost taken_of = { taken_of };

    ghost ended_of = { ended_of };

    ghost is_decided = { λ stream. is_decided (answer_of stream) };

    fn taken(stream: Stream, chunk: &[u8]) -> Stream {
        stream.take(chunk)
    }

    fn ended(stream: Stream) -> Stream {
        stream.end()
    }

    fn decided(stream: Stream) -> bool {
        is_decided(stream.answer())
    }
}

// What comes of a file of which a stream has taken all bytes so far, and of which the last read means this.
pub fn outcome_at(got: Got, stream: Stream) -> Outcome
    ensures { result ≡ outcome_at got stream }
{
    let ended = stream::at_end::<CardFile>(got, stream)?;
    Ok(ended.answer())
}
