// The running state, by value: how far a file has come, its counts and its sums.
ghost use Rattle.std.specs.Prelude.{◌≡◌};
ghost use Rattle.payroll_run.specs.State.{opened, next_number, staged, refusal_at, refused_at, counted};

use crate::stage::Stage;
use refusal::{Cause, Refusal};

// Of the open batch: its records, its details and the sum of its payments.
#[derive(Clone, Copy, Default)]
pub struct Batch {
    pub records: u64,
    pub details: u64,
    pub sum: u64,
}

// `batches` counts the open one too; `payments` and `amount` are of the whole file.
#[derive(Clone, Copy, Default)]
pub struct Running {
    pub stage: Stage,
    pub is_return: bool,
    pub records: u64,
    pub batches: u64,
    pub payments: u64,
    pub amount: u64,
    pub batch: Batch,
}

impl Running {
    // Nothing has come.
    pub fn open() -> Running
        ensures { result ≡ opened }
    {
        Running::default()
    }

    // The number of the record that comes next.
    pub fn next_number(self) -> u64
        ensures { result ≡ next_number self }
    {
        totals::sum::added(self.records, 1)
    }

    // The same at another stage.
    fn staged(self, stage: Stage) -> Running
        ensures { result ≡ staged stage self }
    {
        Running { stage, ..self }
    }

    // A refusal at the record that comes next.
    pub fn refusal(self, cause: Cause, column: u64) -> Refusal
        ensures { result ≡ refusal_at cause column self }
    {
        Refusal {
            cause,
            record: self.next_number(),
            column,
        }
    }

    // Refused for good, at the record that comes next.
    pub fn refused(self, cause: Cause, column: u64) -> Running
        ensures { result ≡ refused_at cause column self }
    {
        self.staged(Stage::Refused(self.refusal(cause, column)))
    }

    // One record more, of the file and of the open batch, at a stage.
    pub(crate) fn counted(self, stage: Stage) -> Running
        ensures { result ≡ counted stage self }
    {
        let mut next = self.staged(stage);
        next.records = self.next_number();
        next.batch.records = totals::sum::added(self.batch.records, 1);
        next
    }
}
