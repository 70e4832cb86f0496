// The lines of the files that are made here.
ghost use Rattle.std.specs.Prelude.{◌≡◌};
ghost use Rattle.payroll_cases.specs.Plans.{one_batch, large_batches, empty_batches};

use crate::made::Plan;
use crate::{line, made};
use cases::print;

// The largest amount of a payment, and the sum of a thousand of them, the largest that has 18 digits.
const LARGEST: u64 = 999_999_999_999_999;

const SUM_OF_1000: u64 = 999_999_999_999_999_000;

// Prints the line of so many bytes in front of the room.
fn print_front(room: &[u8], size: usize) {
    if size <= room.len() {
        line::print_whole(&room[0..size]);
    }
}

// Makes the records of a file, and prints its line.
fn print_records(plan: Plan, room: &mut [u8]) {
    let size = made::put_records(plan, room);
    print_front(room, size);
}

// The same of a file that the byte 1A ends.
fn print_file(plan: Plan, room: &mut [u8]) {
    let records = made::put_records(plan, room);
    let size = made::put_end(room, records);
    print_front(room, size);
}

// One batch of so many payments of the largest amount, with this sum.
fn one_batch(payments: u32, sum: u64) -> Plan
    ensures { result ≡ one_batch payments sum }
{
    Plan {
        batches: 1,
        payments,
        amount: LARGEST,
        sum,
        last: None,
        records: payments as u64 + 4,
    }
}

// So many batches of a thousand payments of the largest amount, and one more of one payment where there is a `last`.
fn large_batches(batches: u32, last: Option<u64>, records: u64) -> Plan
    ensures { result ≡ large_batches batches last records }
{
    Plan {
        batches,
        payments: 1000,
        amount: LARGEST,
        sum: SUM_OF_1000,
        last,
        records,
    }
}

// So many batches with no payment.
fn empty_batches(batches: u32) -> Plan
    ensures { result ≡ empty_batches batches }
{
    Plan {
        batches,
        payments: 0,
        amount: 0,
        sum: 0,
        last: None,
        records: batches as u64 * 2 + 2,
    }
}

// The sums of one batch: of 18 digits, of 19 and modulo 10^18, and past 2^64 and modulo 2^64.
fn print_sums(room: &mut [u8]) {
    print_file(one_batch(1000, SUM_OF_1000), room);
    print_file(one_batch(1001, 999_999_999_998_999), room);
    print_file(one_batch(18447, 255_926_290_429_937), room);
}

// The amounts of a whole file, of which ten batches have 10^19 - 10000: 10^19 - 1; and 10^19, with the byte 1A, without, and behind a wrong count.
fn print_amounts(room: &mut [u8]) {
    print_file(large_batches(10, Some(9999), 10025), room);
    print_file(large_batches(10, Some(10000), 10025), room);
    print_records(large_batches(10, Some(10000), 10025), room);
    print_file(large_batches(10, Some(10000), 10026), room);
}

// Many batches: of an amount past 2^64, which is below 10^19 where it wraps; as many as there may be; and one more.
fn print_many(room: &mut [u8]) {
    print_file(large_batches(19, None, 19040), room);
    print_file(empty_batches(9998), room);
    print_file(empty_batches(9999), room);
}

fn print_lines(room: &mut [u8]) {
    print_sums(room);
    print_amounts(room);
    print_many(room);
}

// Prints all of them, in room for 9,998 batches with no payment, the longest file here.
pub fn print_all() {
    let mut room = [0; 4839517];
    print::text(b"made\n");
    print_lines(&mut room);
}
