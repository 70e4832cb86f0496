// A payroll file read whole.
ghost use Rattle.std.specs.Prelude.{◌≡◌};
ghost use Rattle.payroll_file.specs.PayrollFile.{unended_of, line_of, ended_of, cut_short_of, end_of, check_of};

use crate::answer::{Accepted, PayrollAnswer};
use payroll_run::running::Running;
use payroll_run::stage::Stage;
use refusal::Cause;

// Bytes without a line end: 13 behind the file trailer, else 3.
#[tactic(auto, unfolding(crate::specs::PayrollFile::unended_at))]
fn no_line_end(state: Running) -> Running
    ensures { result ≡ unended_of state }
{
    match state.stage {
        Stage::Refused(_) => state,
        Stage::Ended => state.refused(Cause::BytesAfterTheEnd, 0),
        Stage::Start | Stage::BetweenBatches | Stage::InBatch | Stage::BehindA | Stage::BehindB =>
            state.refused(Cause::NoLineEnd, 0),
    }
}

// Takes the piece before an LF: a record, where a CR ends it.
pub fn take_line(state: Running, piece: &[u8]) -> Running
    ensures { result ≡ line_of state piece.now }
{
    if lines::ends_in_cr(piece) {
        return payroll_step::took(
            state,
            payroll_record::reading::read(lines::without_last(piece)),
        );
    }
    no_line_end(state)
}

// What is left behind the file trailer's line: one byte 1A and nothing more.
#[tactic(auto, unfolding(crate::specs::PayrollFile::ended_of))]
fn answer_behind_trailer(state: Running, rest: &[u8]) -> PayrollAnswer
    ensures { result ≡ ended_of state rest.now }
{
    if rest.is_empty() {
        return Err(state.refusal(Cause::EndsTooEarly, 0));
    }
    if text::literal::equals(rest, b"\x1a") {
        return Ok(Accepted {
            records: state.records,
            batches: state.batches,
            payments: state.payments,
            amount: state.amount,
        });
    }
    Err(state.refusal(Cause::BytesAfterTheEnd, 0))
}

// What is left before the file trailer has come: nothing, or bytes without a line end.
#[tactic(auto, unfolding(crate::specs::PayrollFile::cut_short_of))]
fn answer_before_trailer(state: Running, rest: &[u8]) -> PayrollAnswer
    ensures { result ≡ cut_short_of state rest.now }
{
    if rest.is_empty() {
        return Err(state.refusal(Cause::EndsTooEarly, 0));
    }
    Err(state.refusal(Cause::NoLineEnd, 0))
}

// The answer of a state, with what is left behind the last LF.
#[tactic(auto, unfolding(crate::specs::PayrollFile::end_at))]
pub fn answer_with_rest(state: Running, rest: &[u8]) -> PayrollAnswer
    ensures { result ≡ end_of state rest.now }
{
    match state.stage {
        Stage::Refused(refusal) => Err(refusal),
        Stage::Ended => answer_behind_trailer(state, rest),
        Stage::Start | Stage::BetweenBatches | Stage::InBatch | Stage::BehindA | Stage::BehindB =>
            answer_before_trailer(state, rest),
    }
}

// The answer of a file.
pub fn check(file: &[u8]) -> PayrollAnswer
    ensures { result ≡ check_of file.now }
{
    let (state, rest) = lines::take_pieces(Running::open(), file, take_line);
    answer_with_rest(state, rest)
}
