// Card files: prints the answer of each case, a line each, first of the outside cases and then of our own: read whole, then in chunks, and the small ones
// of our own cut in two at every place; then of cases given record by record, of what no file of cases can say, and of single fields.
#![tactic(auto)]

use card_run::answer::CardAnswer;
use cases::layout::EDITION_AND_PART;
use cases::source::{CUT_AT_EVERY_PLACE, IN_CHUNKS, Source, WHOLE};
use cases::{answer, print, row};

mod fed;
mod fields;
mod limits;
mod streamed;

// The longest file that is cut at every place.
const CUT_MOST: usize = 400;

// Prints an answer, a line.
fn print_line(answer: CardAnswer) {
    answer::print_card_answer(answer);
    print::byte(b'\n');
}

// Prints the answer of a file read whole, and how many of its cuts in two have the same, a line. A longer file is left out.
fn print_cuts(edition: u64, file: &[u8]) {
    if CUT_MOST < file.len() {
        return;
    }
    let whole = card_file::check(edition, file);
    answer::print_card_answer(whole);
    answer::next_cuts(streamed::cuts_alike(edition, file, &row::card_row(whole)));
}

// Prints the lines of files read whole.
fn print_whole(rt: &HostRuntime, source: Source) {
    source.print_cases(rt, WHOLE, EDITION_AND_PART, |[edition, _], file| {
        print_line(card_file::check(edition, file))
    });
}

// Prints the lines of files in chunks.
fn print_in_chunks(rt: &HostRuntime, source: Source) {
    source.print_cases(rt, IN_CHUNKS, EDITION_AND_PART, |[edition, _], file| {
        print_line(streamed::in_chunks(edition, file))
    });
}

fn main(rt: HostRuntime) {
    print_whole(&rt, Source::Outside);
    print_whole(&rt, Source::Own);
    print_in_chunks(&rt, Source::Outside);
    print_in_chunks(&rt, Source::Own);
    Source::Own.print_cases(
        &rt,
        CUT_AT_EVERY_PLACE,
        EDITION_AND_PART,
        |[edition, _], file| print_cuts(edition, file),
    );
    fed::print(&rt, Source::Outside);
    fed::print(&rt, Source::Own);
    limits::print_all(&rt);
    fields::print(&rt, Source::Outside);
    fields::print(&rt, Source::Own);
}
