// Card files given record by record: the answers after each call, a line for each case.
ghost use Rattle.std.specs.Prelude.{◌≡◌, ◌≤◌};
ghost use Rattle.card_cases.specs.Call.{called_of};

use card_run::running::Running;
use cases::cursor::{LENGTH_BYTES, Number};
use cases::layout::EDITION_AND_PART;
use cases::source::Source;
use cases::{answer, cursor, print};

// The length that stands for a close: a number, as the stored cases have it.
const CLOSE: u64 = 4294967295;

// The state after a call: a close, or a record of this length.
fn called(state: Running, length: u64, bytes: &[u8]) -> Running
    ensures { result ≡ called_of length state bytes.now }
{
    if length == CLOSE {
        return state.close();
    }
    card_file::feed(state, bytes)
}

// The place behind a call whose length this is.
fn behind_call(length: Number) -> usize
    ensures { length.behind ≤ result }
{
    if length.value == CLOSE {
        return length.behind;
    }
    length.behind_part()
}

// Prints the answer after a call, and a `;` before every answer but the first.
fn print_answer(state: Running, at: usize) {
    if at > 0 {
        print::byte(b';');
    }
    answer::print_card_answer(state.answer());
}

// Prints the answer after each call. The calls stand one behind the other, each as long as its own front says: no iterator of the library goes so.
fn print_calls(edition: u64, calls: &[u8]) {
    let mut state = Running::open(edition);
    let mut at = 0;
    while at < calls.len() {
        let length = cursor::number_at(calls, at, LENGTH_BYTES);
        state = called(state, length.value, length.part(calls));
        print_answer(state, at);
        at = behind_call(length);
    }
    cursor::print_end(calls, at);
}

// Prints the line of each case of a file.
fn print_file(rt: &HostRuntime, path: &[u8]) {
    EDITION_AND_PART.print_file(rt, path, |[edition, _], calls| {
        print_calls(edition, calls);
        print::byte(b'\n');
    });
}

// Prints the title and the lines of a source.
pub fn print(rt: &HostRuntime, source: Source) {
    source.print_title(b", record by record");
    match source {
        Source::Outside => print_file(rt, b"outside_fed.cases"),
        Source::Own => print_file(rt, b"own_fed.cases"),
    }
}
