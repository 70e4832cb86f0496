// What is behind a record that keeps the rules.
ghost use Rattle.std.specs.Prelude.{◌≡◌};
ghost use Rattle.totals.specs.Sum.{capped};
ghost use Rattle.payroll_run.specs.Behind.{behind_header, behind_batch_header, behind_segment, behind_detail, behind};

use crate::running::{Batch, Running};
use crate::stage::Stage;
use payroll_record::detail::Detail;
use payroll_record::file_header::FileHeader;
use payroll_record::kind::Kind;
use payroll_record::reading::Reading;

// What was paid, with one amount more. It stays at the top of 64 bits, where it equals no trailer and is too large.
fn paid(sum: u64, amount: u64) -> u64
    ensures { result ≡ capped sum amount }
{
    totals::sum::added(sum, amount)
}

impl Running {
    // Behind the file header.
    fn behind_header(self, header: FileHeader) -> Running
        ensures { result ≡ behind_header self header }
    {
        let mut next = self.counted(Stage::BetweenBatches);
        next.is_return = header.is_return;
        next
    }

    // Behind a batch header: a batch of one record.
    fn behind_batch_header(self) -> Running
        ensures { result ≡ behind_batch_header self }
    {
        let mut next = self.counted(Stage::InBatch);
        next.batches = totals::sum::added(self.batches, 1);
        next.batch = Batch {
            records: 1,
            details: 0,
            sum: 0,
        };
        next
    }

    // Behind a detail at a stage, with one payment more or none, of an amount.
    fn behind_segment(self, stage: Stage, payments: u64, amount: u64) -> Running
        ensures { result ≡ behind_segment self stage payments amount }
    {
        let mut next = self.counted(stage);
        next.payments = totals::sum::added(self.payments, payments);
        next.amount = paid(self.amount, amount);
        next.batch.details = totals::sum::added(self.batch.details, 1);
        next.batch.sum = paid(self.batch.sum, amount);
        next
    }

    // Behind a detail.
    #[tactic(auto, unfolding(crate::specs::Behind::behind_detail_as))]
    fn behind_detail(self, detail: Detail) -> Running
        ensures { result ≡ behind_detail self detail }
    {
        match detail.segment {
            Kind::SegmentA => self.behind_segment(Stage::BehindA, 1, detail.amount),
            Kind::SegmentB => self.behind_segment(Stage::BehindB, 0, 0),
            Kind::SegmentZ => self.behind_segment(Stage::InBatch, 0, 0),
            Kind::FileHeader | Kind::BatchHeader | Kind::BatchTrailer | Kind::FileTrailer => self,
        }
    }

    // Behind a record that keeps the rules.
    #[tactic(auto, unfolding(crate::specs::Behind::behind))]
    pub fn behind(self, reading: Reading) -> Running
        ensures { result ≡ behind self reading }
    {
        match reading {
            Reading::WrongWidth | Reading::Unknown(_) => self,
            Reading::FileHeader(header) => self.behind_header(header),
            Reading::BatchHeader(_) => self.behind_batch_header(),
            Reading::Detail(detail) => self.behind_detail(detail),
            Reading::BatchTrailer(_) => self.counted(Stage::BetweenBatches),
            Reading::FileTrailer(_) => self.counted(Stage::Ended),
        }
    }
}
