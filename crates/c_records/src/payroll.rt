// A payroll file, record by record.
ghost use Rattle.std.specs.Prelude.{◌≡◌};
ghost use Rattle.payroll_stream.specs.Feeding.{open_feeding, fed_of, closed_with, answer_of};
ghost use Rattle.answer_rows.specs.Payroll.{progress_numbers};
ghost use Rattle.state_numbers.specs.PayrollState.{feeding_numbers, feeding_of};
ghost use Rattle.c_records.specs.Call.{called_of};

use answer_rows::payroll::{PAYROLL_NUMBERS, progress_row};
use payroll_stream::feeding::Feeding;
use state_numbers::payroll;
use state_numbers::payroll::STATE_NUMBERS;

// The state of a file of which nothing has come: its first stage, and zeros. Written out, so that `take` alone makes numbers of a state.
#[tactic(auto, unfolding(payroll_stream::specs::Stream::progress_row, state_numbers::specs::PayrollState::feeding_numbers))]
#[unsafe(no_mangle)]
pub extern "C" fn lossivurn_payroll_open(state: &mut [u64; STATE_NUMBERS])
    ensures { state.new ≡ feeding_numbers open_feeding }
{
    *state = [1, 0, 0, 0, 0, 0, 0, 0, 0, 0, 0, 0, 0, 0, 0, 0, 0, 0, 0, 0];
}

// What is done with the bytes that a call hands over. An enum and no closure, of which each call would have a copy of `take` and of `numbers` its own: a file by records then takes
// 124 million instructions and not 121.
#[derive(Clone, Copy)]
enum Call {
    Feed,
    Close,
}

// A file behind a call.
#[tactic(auto, unfolding(crate::specs::Call::called_of))]
fn called(call: Call, feeding: Feeding, bytes: &[u8]) -> Feeding
    ensures { result ≡ called_of call feeding bytes.now }
{
    match call {
        Call::Feed => feeding.feed(bytes),
        Call::Close => feeding.close(bytes),
    }
}

// The numbers behind a call. Feeding and closing come together here, so that numbers are made of a state in one place, where the compiler inlines it.
fn take(call: Call, state: &mut [u64; STATE_NUMBERS], bytes: &[u8])
    ensures { state.new ≡ feeding_numbers (called_of call (feeding_of state.old) bytes.now) }
{
    let next = called(call, payroll::feeding_of(state), bytes);
    *state = payroll::numbers(next);
}

// Takes the next record, without its line end.
#[tactic(auto, unfolding(crate::specs::Call::called_of))]
#[unsafe(no_mangle)]
pub extern "C" fn lossivurn_payroll_feed(state: &mut [u64; STATE_NUMBERS], bytes: &[u8])
    ensures { state.new ≡ feeding_numbers (fed_of (feeding_of state.old) bytes.now) }
{
    take(Call::Feed, state, bytes);
}

// No record comes any more; these bytes stand behind the last line end.
#[tactic(auto, unfolding(crate::specs::Call::called_of))]
#[unsafe(no_mangle)]
pub extern "C" fn lossivurn_payroll_close(state: &mut [u64; STATE_NUMBERS], rest: &[u8])
    ensures { state.new ≡ feeding_numbers (closed_with (feeding_of state.old) rest.now) }
{
    take(Call::Close, state, rest);
}

// The row of the answer so far.
#[unsafe(no_mangle)]
pub extern "C" fn lossivurn_payroll_answer(
    state: &[u64; STATE_NUMBERS],
    row: &mut [u64; PAYROLL_NUMBERS],
)
    ensures { row.new ≡ progress_numbers (answer_of (feeding_of state.now)) }
{
    *row = progress_row(payroll::feeding_of(state).answer());
}
