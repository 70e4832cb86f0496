// Payroll files: prints the answer of each case, a line each, first of the outside cases, then of our own, then of files that are made here, whole and record
// by record; and again of both in chunks, and the small ones of our own cut in two at every place.
#![tactic(auto)]

use cases::layout::PART;
use cases::source::{CUT_AT_EVERY_PLACE, IN_CHUNKS, Source, WHOLE};

mod kinds;
mod line;
mod long_batch;
mod made;
mod print_made;
mod record;
mod streamed;

// Prints the lines of a file of cases, which are run in this way.
fn print_all<F: Fn(&[u8])>(rt: &HostRuntime, source: Source, way: &[u8], print: F)
    requires { F.IsAlwaysCallable print }
{
    source.print_cases(rt, way, PART, |_, file| print(file));
}

fn main(rt: HostRuntime) {
    print_all(&rt, Source::Outside, WHOLE, line::print_whole);
    print_all(&rt, Source::Own, WHOLE, line::print_whole);
    print_made::print_all();
    long_batch::print_all();
    print_all(&rt, Source::Outside, IN_CHUNKS, line::print_in_chunks);
    print_all(&rt, Source::Own, IN_CHUNKS, line::print_in_chunks);
    print_all(&rt, Source::Own, CUT_AT_EVERY_PLACE, line::print_cuts);
}
