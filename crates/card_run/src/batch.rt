// The open batch: what its trailer is compared with, and no more. What is added and what is taken are kept apart, so that no sum is below zero.
ghost use Rattle.std.specs.Prelude.{◌≡◌};
ghost use Rattle.card_run.specs.Batch.{no_transaction, one_added, one_taken, sums_to};

#[derive(Clone, Copy, Default)]
pub struct OpenBatch {
    pub transactions: u64,
    pub added: u64,
    pub taken: u64,
}

impl OpenBatch {
    // A batch of no transaction.
    pub fn none() -> OpenBatch
        ensures { result ≡ no_transaction }
    {
        OpenBatch::default()
    }

    // One transaction more, whose amount is added.
    pub fn with_added(self, amount: u64) -> OpenBatch
        ensures { result ≡ one_added amount self }
    {
        OpenBatch {
            transactions: totals::sum::added(self.transactions, 1),
            added: totals::sum::added(self.added, amount),
            taken: self.taken,
        }
    }

    // One transaction more, whose amount is taken.
    pub fn with_taken(self, amount: u64) -> OpenBatch
        ensures { result ≡ one_taken amount self }
    {
        OpenBatch {
            transactions: totals::sum::added(self.transactions, 1),
            added: self.added,
            taken: totals::sum::added(self.taken, amount),
        }
    }

    // Whether what is added less what is taken is this sum.
    pub fn sums_to(self, sum: u64) -> bool
        ensures { result ≡ sums_to sum self }
    {
        self.added.checked_sub(self.taken) == Some(sum)
    }
}
