// Files that are made here, because they are too long to be kept.
ghost use Rattle.std.specs.Prelude.{◌≡◌};
ghost use Rattle.payroll_cases.specs.Made.{made, put_behind, put_all, payments_of, batch_of, alike_batches, last_batch, batch_count, trailer_of, records_of, end_byte};
ghost use Rattle.payroll_cases.specs.Kinds.{file_header};
ghost use Rattle.payroll_cases.specs.Record.{record_of};

use crate::{kinds, record};

// A file: batches that differ only in their number, each of so many payments of one amount, with this sum in its trailer.
#[derive(Clone, Copy)]
pub struct Plan {
    pub batches: u32,
    pub payments: u32,
    pub amount: u64,
    pub sum: u64,
    // The amount of the one payment of one more batch.
    pub last: Option<u64>,
    // How many records the file trailer counts.
    pub records: u64,
}

// Puts so many payments of one amount, numbered from 1.
fn put_payments(batch: u64, payments: u64, amount: u64, out: &mut [u8], at: usize) -> usize
    ensures { made out.new result ≡ put_all (made out.old at) (payments_of batch amount payments) }
{
    let mut end = at;
    for number in 0..payments {
        end = record::put(kinds::payment(batch, amount, number + 1), out, end);
    }
    end
}

// Puts a batch: its header, its payments and its trailer.
#[tactic(auto, using(crate::proofs::Making::put_on))]
fn put_batch(batch: u64, payments: u32, amount: u64, sum: u64, out: &mut [u8], at: usize) -> usize
    ensures { made out.new result ≡ put_all (made out.old at) (batch_of batch payments amount sum) }
{
    let first = record::put(kinds::batch_header(batch), out, at);
    let last = put_payments(batch, payments as u64, amount, out, first);
    record::put(kinds::batch_trailer(batch, payments, sum), out, last)
}

// Puts the batches of a plan that differ only in their number.
fn put_batches(plan: Plan, out: &mut [u8], at: usize) -> usize
    ensures { made out.new result ≡ put_all (made out.old at) (alike_batches plan plan.batches) }
{
    let batches = plan.batches as u64;
    let mut end = at;
    for batch in 0..batches {
        end = put_batch(batch + 1, plan.payments, plan.amount, plan.sum, out, end);
    }
    end
}

// Puts the batch of one payment behind the others, where the plan has one.
fn put_last(plan: Plan, out: &mut [u8], at: usize) -> usize
    ensures { made out.new result ≡ put_all (made out.old at) (last_batch plan) }
{
    match plan.last {
        Some(last) => put_batch(plan.batches as u64 + 1, 1, last, last, out, at),
        None => at,
    }
}

// How many batches a plan has.
fn batches_of(plan: Plan) -> u64
    ensures { result ≡ batch_count plan }
{
    match plan.last {
        Some(_) => plan.batches as u64 + 1,
        None => plan.batches as u64,
    }
}

// Puts the file header.
fn put_header(out: &mut [u8]) -> usize
    ensures { made out.new result ≡ put_behind (made out.old 0) (record_of file_header) }
{
    record::put(kinds::file_header(), out, 0)
}

// Puts the file trailer.
fn put_trailer(plan: Plan, out: &mut [u8], at: usize) -> usize
    ensures { made out.new result ≡ put_behind (made out.old at) (record_of (trailer_of plan)) }
{
    let trailer = kinds::file_trailer(batches_of(plan), plan.records);
    record::put(trailer, out, at)
}

// Puts the records of a file, and answers how many bytes they take.
#[tactic(auto, using(crate::proofs::Making::put_on))]
pub fn put_records(plan: Plan, out: &mut [u8]) -> usize
    ensures { made out.new result ≡ put_all (made out.old 0) (records_of plan) }
{
    let header = put_header(out);
    let batches = put_batches(plan, out, header);
    let last = put_last(plan, out, batches);
    put_trailer(plan, out, last)
}

// Puts the byte that ends a file behind its records, and answers how many bytes are there then.
pub fn put_end(out: &mut [u8], at: usize) -> usize
    ensures { made out.new result ≡ put_behind (made out.old at) end_byte }
{
    record::put_behind(&[b'\x1a'], out, at)
}
