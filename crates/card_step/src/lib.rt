// One step of a card file: what reading answered of a record is judged at its place, and the state goes behind it or is refused.
#![tactic(auto)]

ghost use Rattle.std.specs.Prelude.{◌≡◌};
ghost use Rattle.card_step.specs.Step.{judged_of, took_of};

use card_record::reading::Reading;
use card_run::running::Running;

mod behind;
mod fault;

// Refused, or behind the record.
#[tactic(auto, unfolding(crate::specs::Step::behind_or_refused))]
fn judged(state: Running, reading: Reading) -> Running
    ensures { result ≡ judged_of state reading }
{
    match fault::fault(state, reading) {
        Ok(()) => behind::behind(state, reading),
        Err(fault) => state.refused(fault.cause, fault.column),
    }
}

// Takes what reading answered of the next record. (It is judged in one place, so that the compiler keeps the state where it is.)
#[tactic(auto, unfolding(crate::specs::Step::took_at))]
pub fn took(state: Running, reading: Reading) -> Running
    ensures { result ≡ took_of state reading }
{
    if state.stage.is_open() {
        return judged(state, reading);
    }
    state.late()
}
