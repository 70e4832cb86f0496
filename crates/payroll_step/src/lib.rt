// One record more of a payroll file, judged at its place: the running state takes what reading answered, and the next state is handed back.
#![tactic(auto)]

mod fault;

ghost use Rattle.std.specs.Prelude.{◌≡◌};
ghost use Rattle.payroll_step.specs.Step.{judged_of, took_of};

use payroll_record::reading::Reading;
use payroll_run::running::Running;
use payroll_run::stage::Stage;
use refusal::Cause;

// Refused, or behind the record.
#[tactic(auto, unfolding(crate::specs::Step::behind_or_refused))]
fn judged(state: Running, reading: Reading) -> Running
    ensures { result ≡ judged_of state reading }
{
    match fault::fault(state, reading) {
        Ok(()) => state.behind(reading),
        Err(fault) => state.refused(fault.cause, fault.column),
    }
}

// Takes what reading answered of the next record.
#[tactic(auto, unfolding(crate::specs::Step::took_at))]
pub fn took(state: Running, reading: Reading) -> Running
    ensures { result ≡ took_of state reading }
{
    match state.stage {
        Stage::Refused(_) => state,
        Stage::Ended => state.refused(Cause::BytesAfterTheEnd, 0),
        Stage::Start | Stage::BetweenBatches | Stage::InBatch | Stage::BehindA | Stage::BehindB =>
            judged(state, reading),
    }
}
