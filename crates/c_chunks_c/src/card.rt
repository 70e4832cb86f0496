// A card file in chunks.
ghost use Rattle.std.specs.Prelude.{◌≡◌};
ghost use Rattle.card_stream.specs.Stream.{open_of, taken_of, ended_of, answer_of};
ghost use Rattle.answer_rows.specs.Card.{card_numbers};
ghost use Rattle.state_numbers.specs.Streams.{card_stream, KeepsCard};

use answer_rows::card::CARD_NUMBERS;
use chunks::ROOM;
use state_numbers::card::STATE_NUMBERS;

// A file of this edition, of which nothing has come.
#[unsafe(no_mangle)]
pub extern "C" fn lossivurn_card_stream_open(
    edition: u64,
    state: &mut [u64; STATE_NUMBERS],
    waiting: &mut usize,
    held: &mut [u8; ROOM],
)
    ensures { KeepsCard (open_of edition) state.new waiting.new held.new }
{
    c_chunks::card::lossivurn_card_stream_open(edition, state, waiting, held)
}

// Takes the file's next bytes, as many as there are.
#[unsafe(no_mangle)]
pub extern "C" fn lossivurn_card_stream_take(
    state: &mut [u64; STATE_NUMBERS],
    waiting: &mut usize,
    held: &mut [u8; ROOM],
    chunk: &[u8],
)
    ensures { KeepsCard (taken_of (card_stream state.old waiting.old held.old) chunk.now) state.new waiting.new held.new }
{
    c_chunks::card::lossivurn_card_stream_take(state, waiting, held, chunk)
}

// No byte comes any more.
#[unsafe(no_mangle)]
pub extern "C" fn lossivurn_card_stream_end(
    state: &mut [u64; STATE_NUMBERS],
    waiting: &mut usize,
    held: &mut [u8; ROOM],
)
    ensures { KeepsCard (ended_of (card_stream state.old waiting.old held.old)) state.new waiting.new held.new }
{
    c_chunks::card::lossivurn_card_stream_end(state, waiting, held)
}

// The row of the answer so far.
#[unsafe(no_mangle)]
pub extern "C" fn lossivurn_card_stream_answer(
    state: &[u64; STATE_NUMBERS],
    waiting: usize,
    held: &[u8; ROOM],
    row: &mut [u64; CARD_NUMBERS],
)
    ensures { row.new ≡ card_numbers (answer_of (card_stream state.now waiting held.now)) }
{
    c_chunks::card::lossivurn_card_stream_answer(state, waiting, held, row)
}
