// A card file, record by record.
ghost use Rattle.std.specs.Prelude.{◌≡◌};
ghost use Rattle.card_run.specs.Running.{open_of, closed_of};
ghost use Rattle.card_run.specs.Answer.{answer_of};
ghost use Rattle.card_file.specs.Feeding.{fed_of};
ghost use Rattle.answer_rows.specs.Card.{card_numbers};
ghost use Rattle.state_numbers.specs.CardState.{state_numbers, state_of};

use answer_rows::card::CARD_NUMBERS;
use state_numbers::card::STATE_NUMBERS;

// The state of a file of this edition, of which nothing has come.
#[unsafe(no_mangle)]
pub extern "C" fn lossivurn_card_open(edition: u64, state: &mut [u64; STATE_NUMBERS])
    ensures { state.new ≡ state_numbers (open_of edition) }
{
    c_records::card::lossivurn_card_open(edition, state)
}

// Takes the next record, without its line end.
#[unsafe(no_mangle)]
pub extern "C" fn lossivurn_card_feed(state: &mut [u64; STATE_NUMBERS], bytes: &[u8])
    ensures { state.new ≡ state_numbers (fed_of (state_of state.old) bytes.now) }
{
    c_records::card::lossivurn_card_feed(state, bytes)
}

// No record comes any more.
#[unsafe(no_mangle)]
pub extern "C" fn lossivurn_card_close(state: &mut [u64; STATE_NUMBERS])
    ensures { state.new ≡ state_numbers (closed_of (state_of state.old)) }
{
    c_records::card::lossivurn_card_close(state)
}

// The row of the answer so far.
#[unsafe(no_mangle)]
pub extern "C" fn lossivurn_card_answer(state: &[u64; STATE_NUMBERS], row: &mut [u64; CARD_NUMBERS])
    ensures { row.new ≡ card_numbers (answer_of (state_of state.now)) }
{
    c_records::card::lossivurn_card_answer(state, row)
}
