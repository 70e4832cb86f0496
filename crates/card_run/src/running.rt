// The running state, by value: each call hands the next state back.
ghost use Rattle.std.specs.Prelude.{◌≡◌};
ghost use Rattle.card_run.specs.Answer.{answer_of};
ghost use Rattle.card_run.specs.Running.{
  open_stage,
  open_of,
  next_number,
  moved,
  staged,
  refused_at,
  late_of,
  closed_of,
};

use crate::adjusted::Adjusted;
use crate::answer::{Accepted, CardAnswer};
use crate::batch::OpenBatch;
use crate::stage::Stage;
use refusal::{Cause, Refusal};
use totals::two_sets::TwoSets;

// `numbers` are of the records that have come so far: the answer, once the file is accepted.
#[derive(Clone, Copy)]
pub struct Running {
    pub stage: Stage,
    pub edition: u64,
    pub numbers: Accepted,
    pub batch: OpenBatch,
}

// The stage at which a file of this edition opens.
fn opening(edition: u64) -> Stage
    ensures { result ≡ open_stage edition }
{
    match edition::known::fault_of(edition) {
        Ok(()) => Stage::Start,
        Err(fault) => Stage::Refused(Refusal::nowhere(fault.cause)),
    }
}

impl Running {
    // A file of this edition, of which nothing has come.
    pub fn open(edition: u64) -> Running
        ensures { result ≡ open_of edition }
    {
        Running {
            stage: opening(edition),
            edition,
            numbers: Accepted {
                date: 0,
                movement: 0,
                records: 0,
                batches: 0,
                totals: TwoSets::none(),
                credits: Adjusted::none(),
                debits: Adjusted::none(),
            },
            batch: OpenBatch::none(),
        }
    }

    // The number of the record that comes next.
    pub fn next_number(self) -> u64
        ensures { result ≡ next_number self }
    {
        totals::sum::added(self.numbers.records, 1)
    }

    // The same file at a stage, with these numbers and this open batch.
    pub fn moved(self, stage: Stage, numbers: Accepted, batch: OpenBatch) -> Running
        ensures { result ≡ moved stage numbers batch self }
    {
        Running {
            stage,
            edition: self.edition,
            numbers,
            batch,
        }
    }

    // The same at another stage alone.
    fn staged(self, stage: Stage) -> Running
        ensures { result ≡ staged stage self }
    {
        self.moved(stage, self.numbers, self.batch)
    }

    // Refused for good, at the record that comes next.
    pub fn refused(self, cause: Cause, column: u64) -> Running
        ensures { result ≡ refused_at cause column self }
    {
        self.staged(Stage::Refused(Refusal {
            cause,
            record: self.next_number(),
            column,
        }))
    }

    // Behind bytes that come when none are expected: 13, unless the file is refused already.
    #[tactic(auto, unfolding(crate::specs::Running::late_at))]
    pub fn late(self) -> Running
        ensures { result ≡ late_of self }
    {
        match self.stage {
            Stage::Ended | Stage::Closed => self.refused(Cause::BytesAfterTheEnd, 0),
            Stage::Refused(_) | Stage::Start | Stage::BetweenBatches | Stage::InBatch => self,
        }
    }

    // Closes the file: no record comes any more.
    #[tactic(auto, unfolding(crate::specs::Running::closed_at))]
    pub fn close(self) -> Running
        ensures { result ≡ closed_of self }
    {
        match self.stage {
            Stage::Start | Stage::BetweenBatches | Stage::InBatch => self.refused(
                Cause::EndsTooEarly,
                0,
            ),
            Stage::Ended => self.staged(Stage::Closed),
            Stage::Closed | Stage::Refused(_) => self,
        }
    }

    // The answer so far.
    #[tactic(auto, unfolding(crate::specs::Answer::answer_at))]
    pub fn answer(self) -> CardAnswer
        ensures { result ≡ answer_of self }
    {
        match self.stage {
            Stage::Refused(refusal) => Some(Err(refusal)),
            Stage::Closed => Some(Ok(self.numbers)),
            Stage::Start | Stage::BetweenBatches | Stage::InBatch | Stage::Ended => None,
        }
    }
}
