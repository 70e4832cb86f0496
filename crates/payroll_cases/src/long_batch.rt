// A batch of as many payments as a detail number can tell, and one of one more. They are too long to be made whole: each record is made and taken by itself.
ghost use Rattle.std.specs.Prelude.{◌+◌, ◌≡◌, Some, [], ◌∷◌, ◌++◌};
ghost use Rattle.payroll_file.specs.PayrollFile.{check_of};
ghost use Rattle.payroll_stream.specs.Stream.{taken_of};
ghost use Rattle.payroll_cases.specs.Record.{record_of};
ghost use Rattle.payroll_cases.specs.Kinds.{file_trailer};
ghost use Rattle.payroll_cases.specs.Made.{payments_of, batch_of};
ghost use Rattle.payroll_cases.specs.Plans.{long_batch};
ghost use Rattle.payroll_cases.specs.LongBatch.{taken_all, file_of};

use crate::record::Record;
use crate::{kinds, line, record};
use cases::print;
use payroll_file::answer::Accepted;
use payroll_stream::Stream;
use refusal::Progress;

// The last detail number that five digits tell.
const MOST: u32 = 99_999;

// Takes a record.
fn take_record(stream: Stream, what: Record) -> Stream
    ensures { result ≡ taken_of stream (record_of what) }
{
    let bytes = record::bytes_of(what);
    stream.take(&bytes)
}

// Takes so many payments of one centavo, of batch 1.
fn take_payments(stream: Stream, payments: u64) -> Stream
    ensures { result ≡ taken_all stream (payments_of 1 1 payments) }
{
    let mut next = stream;
    for number in 0..payments {
        next = take_record(next, kinds::payment(1, 1, number + 1));
    }
    next
}

// Takes a batch of so many payments of one centavo, and the file trailer.
fn take_batch(stream: Stream, payments: u32) -> Stream
    ensures { result ≡ taken_all stream (batch_of 1 payments 1 payments ++ (file_trailer 1 (payments + 4) ∷ [])) }
{
    let count = payments as u64;
    let opened = take_record(stream, kinds::batch_header(1));
    let paid = take_payments(opened, count);
    let closed = take_record(paid, kinds::batch_trailer(1, payments, count));
    take_record(closed, kinds::file_trailer(1, count + 4))
}

// The answer of a file of one batch of so many payments of one centavo.
fn answer(payments: u32) -> Progress<Accepted>
    ensures { result ≡ Some (check_of (file_of (long_batch payments))) }
{
    let header = take_record(Stream::open(), kinds::file_header());
    let last = take_batch(header, payments);
    last.take(&[b'\x1a']).end().answer()
}

// Prints the lines of both.
pub fn print_all() {
    print::text(b"made, record by record\n");
    line::print_progress(answer(MOST));
    line::print_progress(answer(MOST + 1));
}
