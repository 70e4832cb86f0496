// A payroll file, record by record.
ghost use Rattle.std.specs.Prelude.{◌≡◌};
ghost use Rattle.payroll_stream.specs.Feeding.{open_feeding, fed_of, closed_with, answer_of};
ghost use Rattle.answer_rows.specs.Payroll.{progress_numbers};
ghost use Rattle.state_numbers.specs.PayrollState.{feeding_numbers, feeding_of};

use answer_rows::payroll::PAYROLL_NUMBERS;
use state_numbers::payroll::STATE_NUMBERS;

// The state of a file of which nothing has come: its first stage, and zeros. Written out, so that `take` alone makes numbers of a state.
#[unsafe(no_mangle)]
pub extern "C" fn lossivurn_payroll_open(state: &mut [u64; STATE_NUMBERS])
    ensures { state.new ≡ feeding_numbers open_feeding }
{
    c_records::payroll::lossivurn_payroll_open(state)
}

// Takes the next record, without its line end.
#[unsafe(no_mangle)]
pub extern "C" fn lossivurn_payroll_feed(state: &mut [u64; STATE_NUMBERS], bytes: &[u8])
    ensures { state.new ≡ feeding_numbers (fed_of (feeding_of state.old) bytes.now) }
{
    c_records::payroll::lossivurn_payroll_feed(state, bytes)
}

// No record comes any more; these bytes stand behind the last line end.
#[unsafe(no_mangle)]
pub extern "C" fn lossivurn_payroll_close(state: &mut [u64; STATE_NUMBERS], rest: &[u8])
    ensures { state.new ≡ feeding_numbers (closed_with (feeding_of state.old) rest.now) }
{
    c_records::payroll::lossivurn_payroll_close(state, rest)
}

// The row of the answer so far.
#[unsafe(no_mangle)]
pub extern "C" fn lossivurn_payroll_answer(
    state: &[u64; STATE_NUMBERS],
    row: &mut [u64; PAYROLL_NUMBERS],
)
    ensures { row.new ≡ progress_numbers (answer_of (feeding_of state.now)) }
{
    c_records::payroll::lossivurn_payroll_answer(state, row)
}
