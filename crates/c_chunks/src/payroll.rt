// A payroll file in chunks.
ghost use Rattle.std.specs.Prelude.{◌≡◌};
ghost use Rattle.payroll_stream.specs.Stream.{open_of, taken_of, ended_of, answer_of};
ghost use Rattle.answer_rows.specs.Payroll.{progress_numbers};
ghost use Rattle.state_numbers.specs.Streams.{payroll_stream, KeepsPayroll};

use answer_rows::payroll::{PAYROLL_NUMBERS, progress_row};
use chunks::{ROOM, Unfinished};
use payroll_stream::Stream;
use payroll_stream::feeding::Feeding;
use state_numbers::payroll;
use state_numbers::payroll::STATE_NUMBERS;

// The stream that a caller keeps.
fn kept(state: &[u64; STATE_NUMBERS], waiting: usize, held: &[u8; ROOM]) -> Stream
    ensures { result ≡ payroll_stream state.now waiting held.now }
{
    let feeding = payroll::feeding_of(state);
    Stream {
        state: feeding.state,
        held: Unfinished {
            bytes: *held,
            length: waiting,
        },
        progress: feeding.progress,
    }
}

// Leaves a stream with the caller.
fn keep(
    stream: Stream,
    state: &mut [u64; STATE_NUMBERS],
    waiting: &mut usize,
    held: &mut [u8; ROOM],
)
    ensures { KeepsPayroll stream state.new waiting.new held.new }
{
    *state = payroll::numbers(Feeding {
        state: stream.state,
        progress: stream.progress,
    });
    *waiting = stream.held.length;
    let bytes = stream.held.bytes;
    *held = bytes;
}

// A file of which nothing has come.
#[unsafe(no_mangle)]
pub extern "C" fn lossivurn_payroll_stream_open(
    state: &mut [u64; STATE_NUMBERS],
    waiting: &mut usize,
    held: &mut [u8; ROOM],
)
    ensures { KeepsPayroll open_of state.new waiting.new held.new }
{
    keep(Stream::open(), state, waiting, held);
}

// Takes the file's next bytes, as many as there are.
#[unsafe(no_mangle)]
pub extern "C" fn lossivurn_payroll_stream_take(
    state: &mut [u64; STATE_NUMBERS],
    waiting: &mut usize,
    held: &mut [u8; ROOM],
    chunk: &[u8],
)
    ensures { KeepsPayroll (taken_of (payroll_stream state.old waiting.old held.old) chunk.now) state.new waiting.new held.new }
{
    let next = kept(state, *waiting, held).take(chunk);
    keep(next, state, waiting, held);
}

// No byte comes any more.
#[unsafe(no_mangle)]
pub extern "C" fn lossivurn_payroll_stream_end(
    state: &mut [u64; STATE_NUMBERS],
    waiting: &mut usize,
    held: &mut [u8; ROOM],
)
    ensures { KeepsPayroll (ended_of (payroll_stream state.old waiting.old held.old)) state.new waiting.new held.new }
{
    let next = kept(state, *waiting, held).end();
    keep(next, state, waiting, held);
}

// The row of the answer so far.
#[unsafe(no_mangle)]
pub extern "C" fn lossivurn_payroll_stream_answer(
    state: &[u64; STATE_NUMBERS],
    waiting: usize,
    held: &[u8; ROOM],
    row: &mut [u64; PAYROLL_NUMBERS],
)
    ensures { row.new ≡ progress_numbers (answer_of (payroll_stream state.now waiting held.now)) }
{
    *row = progress_row(kept(state, waiting, held).answer());
}
