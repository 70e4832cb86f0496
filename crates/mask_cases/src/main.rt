// Masked copies: prints the answer of each case and the hash of its output, a line each, first of the outside cases and then of our own: of files read
// whole, then in chunks, and of the small ones of our own cut in two at every place.
#![tactic(auto)]

use cases::layout::OUTPUT_OF_FILE;
use cases::output;
use cases::source::{CUT_AT_EVERY_PLACE, IN_CHUNKS, Source, WHOLE};

mod copying;
mod line;

// How many bytes the longest output has.
const ROOM: usize = 4096;

// Prints the lines of a file of cases, whose files are masked in this way.
fn print_all<F: Fn(u64, &[u8], &mut [u8])>(rt: &HostRuntime, source: Source, way: &[u8], print: F)
    requires { F.IsAlwaysCallable print }
{
    source.print_cases(rt, way, OUTPUT_OF_FILE, |[edition, size], file| {
        let mut room = [0; ROOM];
        output::lend(&mut room, size, |out| print(edition, file, out))
    });
}

fn main(rt: HostRuntime) {
    print_all(&rt, Source::Outside, WHOLE, line::print_whole);
    print_all(&rt, Source::Own, WHOLE, line::print_whole);
    print_all(&rt, Source::Outside, IN_CHUNKS, line::print_in_chunks);
    print_all(&rt, Source::Own, IN_CHUNKS, line::print_in_chunks);
    print_all(&rt, Source::Own, CUT_AT_EVERY_PLACE, line::print_cuts);
}
