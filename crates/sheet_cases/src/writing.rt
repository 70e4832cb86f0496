// Sheets that are written into an output, by what a sheet is made of: its numbers, a sheet of the other version, or a card file.
use crate::numbers;
use cases::layout::Layout;
use cases::{answer, output, print};
use day_sheet::layout::Version;
use refusal::Answer;

// How many bytes the longest output of a case has.
const ROOM: usize = 128;

// `A` or `R number record column`
fn print_answer(written: Answer<()>) {
    answer::print_answer(written, |_| print::byte(b'A'));
}

// Writes the sheet of some numbers, and prints the answer.
pub fn print_sheet(version: Version, numbers: &[u8], out: &mut [u8]) {
    print_answer(day_sheet::writer::write(numbers::sheet_in(version, numbers), out));
}

// The same of a sheet in the other version.
pub fn print_converted(sheet: &[u8], out: &mut [u8]) {
    print_answer(day_sheet::converter::convert(sheet, out));
}

// The same of the sheet of a card file.
pub fn print_of_file(edition: u64, file: &[u8], out: &mut [u8]) {
    answer::print_card_answer(card_sheet::sheet_of(edition, file, out));
}

// Prints the name of a file of cases, and a line for each: what `print_answer` prints of its edition, its input and its output, and the output, as `tell` does.
pub fn print_file<A: Fn(u64, &[u8], &mut [u8]), T: Fn(&[u8])>(
    rt: &HostRuntime,
    path: &[u8],
    layout: Layout,
    print_answer: A,
    tell: T,
)
    requires answers { A.IsAlwaysCallable print_answer }
    requires tells { T.IsAlwaysCallable tell }
{
    print::text(path);
    print::byte(b'\n');
    layout.print_file(rt, path, |[edition, size], input| {
        let mut room = [0; ROOM];
        output::lend(&mut room, size, |out| {
            output::fill(out);
            print_answer(edition, input, out);
            print::byte(b' ');
            tell(out);
            print::byte(b'\n');
        })
    });
}
