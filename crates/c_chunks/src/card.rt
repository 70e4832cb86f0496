// A card file in chunks.
ghost use Rattle.std.specs.Prelude.{◌≡◌};
ghost use Rattle.card_stream.specs.Stream.{open_of, taken_of, ended_of, answer_of};
ghost use Rattle.answer_rows.specs.Card.{card_numbers};
ghost use Rattle.state_numbers.specs.Streams.{card_stream, KeepsCard};

use answer_rows::card::{CARD_NUMBERS, card_row};
use card_stream::Stream;
use chunks::{ROOM, Unfinished};
use state_numbers::card;
use state_numbers::card::STATE_NUMBERS;

// The stream that a caller keeps.
fn kept(state: &[u64; STATE_NUMBERS], waiting: usize, held: &[u8; ROOM]) -> Stream
    ensures { result ≡ card_stream state.now waiting held.now }
{
    Stream {
        state: card::state_of(state),
        held: Unfinished {
            bytes: *held,
            length: waiting,
        },
    }
}

// Leaves a stream with the caller.
fn keep(
    stream: Stream,
    state: &mut [u64; STATE_NUMBERS],
    waiting: &mut usize,
    held: &mut [u8; ROOM],
)
    ensures { KeepsCard stream state.new waiting.new held.new }
{
    *state = card::numbers(stream.state);
    *waiting = stream.held.length;
    let bytes = stream.held.bytes;
    *held = bytes;
}

// A file of this edition, of which nothing has come.
#[unsafe(no_mangle)]
pub extern "C" fn lossivurn_card_stream_open(
    edition: u64,
    state: &mut [u64; STATE_NUMBERS],
    waiting: &mut usize,
    held: &mut [u8; ROOM],
)
    ensures { KeepsCard (open_of edition) state.new waiting.new held.new }
{
    keep(Stream::open(edition), state, waiting, held);
}

// Takes the file's next bytes, as many as there are.
#[unsafe(no_mangle)]
pub extern "C" fn lossivurn_card_stream_take(
    state: &mut [u64; STATE_NUMBERS],
    waiting: &mut usize,
    held: &mut [u8; ROOM],
    chunk: &[u8],
)
    ensures { KeepsCard (taken_of (card_stream state.old waiting.old held.old) chunk.now) state.new waiting.new held.new }
{
    let next = kept(state, *waiting, held).take(chunk);
    keep(next, state, waiting, held);
}

// No byte comes any more.
#[unsafe(no_mangle)]
pub extern "C" fn lossivurn_card_stream_end(
    state: &mut [u64; STATE_NUMBERS],
    waiting: &mut usize,
    held: &mut [u8; ROOM],
)
    ensures { KeepsCard (ended_of (card_stream state.old waiting.old held.old)) state.new waiting.new held.new }
{
    let next = kept(state, *waiting, held).end();
    keep(next, state, waiting, held);
}

// The row of the answer so far.
#[unsafe(no_mangle)]
pub extern "C" fn lossivurn_card_stream_answer(
    state: &[u64; STATE_NUMBERS],
    waiting: usize,
    held: &[u8; ROOM],
    row: &mut [u64; CARD_NUMBERS],
)
    ensures { row.new ≡ card_numbers (answer_of (card_stream state.now waiting held.now)) }
{
    *row = card_row(kept(state, waiting, held).answer());
}
