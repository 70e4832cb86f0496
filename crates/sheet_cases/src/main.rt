// Day sheets: prints the answer of each case, a line each, below the name of the file that the cases stand in: sheets to read, to write and to convert, and
// the sheets of card files, first the outside cases and then our own. Our own tell the whole output in hex, the outside ones its hash.
#![tactic(auto)]

use cases::cursor::LENGTH_BYTES;
use cases::layout::{Layout, OUTPUT_OF_FILE, PART};
use cases::print;
use day_sheet::layout::Version;

mod numbers;
mod output;
mod reading;
mod writing;

// The size of an output, and a sheet behind its length.
const CONVERTED: Layout = Layout {
    widths: [0, LENGTH_BYTES],
    size: None,
};

// Prints the name of a file of cases, and the lines of its sheets to read.
fn print_read(rt: &HostRuntime, path: &[u8]) {
    print::text(path);
    print::byte(b'\n');
    PART.print_file(rt, path, |_, sheet| reading::print_answer(sheet));
}

// The same of sheets to write, whose outputs `tell` tells.
fn print_written<T: Fn(&[u8])>(rt: &HostRuntime, path: &[u8], version: Version, tell: T)
    requires { T.IsAlwaysCallable tell }
{
    writing::print_file(
        rt,
        path,
        numbers::layout_of(version),
        |_, numbers, out| writing::print_sheet(version, numbers, out),
        tell,
    );
}

// The same of sheets to convert.
fn print_converted<T: Fn(&[u8])>(rt: &HostRuntime, path: &[u8], tell: T)
    requires { T.IsAlwaysCallable tell }
{
    writing::print_file(
        rt,
        path,
        CONVERTED,
        |_, sheet, out| writing::print_converted(sheet, out),
        tell,
    );
}

fn print_outside(rt: &HostRuntime) {
    print_read(rt, b"outside_read.cases");
    print_written(
        rt,
        b"outside_write1.cases",
        Version::One,
        output::print_hash,
    );
    print_written(
        rt,
        b"outside_write2.cases",
        Version::Two,
        output::print_hash,
    );
    print_converted(rt, b"outside_convert.cases", output::print_hash);
}

fn print_own(rt: &HostRuntime) {
    print_read(rt, b"own_read.cases");
    print_written(rt, b"own_write1.cases", Version::One, output::print_hex);
    print_written(rt, b"own_write2.cases", Version::Two, output::print_hex);
    print_converted(rt, b"own_convert.cases", output::print_hex);
    writing::print_file(
        rt,
        b"own_of_file.cases",
        OUTPUT_OF_FILE,
        writing::print_of_file,
        output::print_hex,
    );
}

fn main(rt: HostRuntime) {
    print_outside(&rt);
    print_own(&rt);
}
