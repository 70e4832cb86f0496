// What running judges of a record that was read: its place, the faults that reading found, and the numbers that are due.
// The rules of a record are rows in a row; the proofs go by the law of those, and open the definitions of the rows.
#![tactic(auto, using(refusal::proofs::Rules::in_a_row, crate::proofs::Found::found), unfolding(refusal::specs::Rules::first_broken, crate::specs::Rules::rules_of, crate::specs::Rules::due_rules))]

ghost use Rattle.std.specs.Prelude.{◌≡◌, [], ◌∷◌};
ghost use Rattle.refusal.specs.Rules.{first_broken};
ghost use Rattle.payroll_step.specs.Due.{place_rule};
ghost use Rattle.payroll_step.specs.Rules.{rules_of};

use payroll_record::batch_header::BatchHeader;
use payroll_record::batch_trailer::BatchTrailer;
use payroll_record::detail::Detail;
use payroll_record::field::Field;
use payroll_record::file_trailer::FileTrailer;
use payroll_record::kind::{Kind, NoKind};
use payroll_record::reading::Reading;
use payroll_run::running::Running;
use refusal::{Cause, Fault};

// The largest batch number, and the first amount that is too large.
const LAST_BATCH: u64 = 9998;

const TOO_LARGE: u64 = 10_000_000_000_000_000_000;

// The fault of a kind that may not stand here.
fn place_fault(state: Running, kind: Kind) -> Result<(), Fault>
    ensures { result ≡ first_broken (place_rule state kind ∷ []) }
{
    let allowed = state.stage.allows(state.is_return, kind);
    refusal::rule(Cause::KindNotAllowedHere, 0, allowed)
}

// A batch header is numbered one more than the batches before it, at most 9998.
fn batch_header_fault(state: Running, header: BatchHeader) -> Result<(), Fault>
    ensures { result ≡ first_broken (rules_of state (Reading.BatchHeader header)) }
{
    let due = totals::sum::added(state.batches, 1);
    place_fault(state, Kind::BatchHeader)?;
    header.front?;
    Field::BATCH.should_be(header.batch, due, Cause::SequenceWrong)?;
    refusal::rule(Cause::SequenceWrong, 4, due <= LAST_BATCH)
}

// A detail has the open batch's number and its own, from 1 in each batch.
fn detail_fault(state: Running, detail: Detail) -> Result<(), Fault>
    ensures { result ≡ first_broken (rules_of state (Reading.Detail detail)) }
{
    let due = totals::sum::added(state.batch.details, 1);
    place_fault(state, detail.segment)?;
    detail.front?;
    Field::BATCH.should_be(detail.batch, state.batches, Cause::SequenceWrong)?;
    Detail::NUMBER.should_be(detail.number, due, Cause::SequenceWrong)?;
    detail.rest
}

// A batch trailer counts the batch's records, itself included, and sums its payments.
fn batch_trailer_fault(state: Running, trailer: BatchTrailer) -> Result<(), Fault>
    ensures { result ≡ first_broken (rules_of state (Reading.BatchTrailer trailer)) }
{
    let records = totals::sum::added(state.batch.records, 1);
    place_fault(state, Kind::BatchTrailer)?;
    trailer.front?;
    Field::BATCH.should_be(trailer.batch, state.batches, Cause::SequenceWrong)?;
    BatchTrailer::COUNT.should_be(trailer.count, records, Cause::TrailerDisagrees)?;
    BatchTrailer::SUM.should_be(trailer.sum, state.batch.sum, Cause::TrailerDisagrees)
}

// The file trailer counts the batches and all records, itself included; then the file's amount.
fn file_trailer_fault(state: Running, trailer: FileTrailer) -> Result<(), Fault>
    ensures { result ≡ first_broken (rules_of state (Reading.FileTrailer trailer)) }
{
    let records = state.next_number();
    place_fault(state, Kind::FileTrailer)?;
    trailer.front?;
    FileTrailer::BATCHES.should_be(trailer.batches, state.batches, Cause::TrailerDisagrees)?;
    FileTrailer::RECORDS.should_be(trailer.records, records, Cause::TrailerDisagrees)?;
    refusal::rule(Cause::TrailerDisagrees, 0, state.amount < TOO_LARGE)
}

// The first fault of what was read, at its place.
pub(crate) fn fault(state: Running, reading: Reading) -> Result<(), Fault>
    ensures { result ≡ first_broken (rules_of state reading) }
{
    match reading {
        Reading::WrongWidth => refusal::rule(Cause::WrongWidth, 0, false),
        Reading::Unknown(NoKind::UnknownKind) => refusal::rule(Cause::KindUnknown, 8, false),
        Reading::Unknown(NoKind::UnknownSegment) => refusal::rule(Cause::KindUnknown, 14, false),
        Reading::FileHeader(header) => place_fault(state, Kind::FileHeader).and(header.fault),
        Reading::BatchHeader(header) => batch_header_fault(state, header),
        Reading::Detail(detail) => detail_fault(state, detail),
        Reading::BatchTrailer(trailer) => batch_trailer_fault(state, trailer),
        Reading::FileTrailer(trailer) => file_trailer_fault(state, trailer),
    }
}
