// Sheets to read.
use cases::{answer, print};
use sheet_numbers::sheet::{Heading, Sheet};

// `A version edition date movement batches`
fn print_heading(version: u64, heading: Heading) {
    print::byte(b'A');
    answer::next_number(version);
    answer::next_number(heading.edition);
    answer::next_day(heading.date, heading.movement);
    answer::next_number(heading.batches);
}

// Behind the heading `sales gross discount net`, or those of the settled, `split`, and those of the forecast.
fn print_sheet(sheet: Sheet) {
    match sheet {
        Sheet::Version1 { heading, totals } => {
            print_heading(1, heading);
            answer::next_totals(totals);
        }
        Sheet::Version2 {
            heading,
            split,
            sets,
        } => {
            print_heading(2, heading);
            answer::next_totals(sets.settled);
            answer::next_number(split);
            answer::next_totals(sets.forecast);
        }
    }
}

// Prints the answer of some bytes, a line.
pub fn print_answer(bytes: &[u8]) {
    answer::print_answer(day_sheet::reader::read(bytes), print_sheet);
    print::byte(b'\n');
}
