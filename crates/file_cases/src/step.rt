// A step: a letter that says what is to be done, and four texts, each behind its length: what is printed first, EDITION, FILE and OUT.
use crate::{compare, folder, out, question};
use cases::cursor::LENGTH_BYTES;
use cases::{cursor, print};

// How many bytes a letter takes.
const LETTER_BYTES: u64 = 1;

// Letters of the stored cases, each looked at once: makes the folder OUT, puts a file with the content FILE at OUT, and leaves the folder OUT.
const FOLDER: u64 = b'F' as u64;

const PUT: u64 = b'W' as u64;

const LEAVE: u64 = b'E' as u64;

// Shows what stands at OUT, as lines, in hex, or its length and hash, and removes it.
const LINES: u64 = b'L' as u64;

const HEX: u64 = b'X' as u64;

const HASH: u64 = b'H' as u64;

// Tells whether FILE and OUT hold the same bytes.
const COMPARE: u64 = b'Q' as u64;

// Does what the letter says.
fn run(rt: &HostRuntime, letter: u64, edition: &[u8], file: &[u8], out: &[u8]) {
    match letter {
        FOLDER => folder::make(rt, out),
        PUT => folder::put(rt, file, out),
        LEAVE => folder::leave(rt, out),
        LINES => out::show(rt, out, print::text),
        HEX => out::show(rt, out, out::print_hex),
        HASH => out::show(rt, out, out::print_hash),
        COMPARE => compare::print(rt, file, out),
        _ => question::print(rt, letter, edition, file, out),
    }
}

// The same of a step whose EDITION has its length at a place.
fn run_behind(rt: &HostRuntime, letter: u64, step: &[u8], at: usize) {
    let edition = cursor::number_at(step, at, LENGTH_BYTES);
    let file = cursor::number_at(step, edition.behind_part(), LENGTH_BYTES);
    let out = cursor::number_at(step, file.behind_part(), LENGTH_BYTES);
    run(
        rt,
        letter,
        edition.part(step),
        file.part(step),
        out.part(step),
    );
}

// Runs a step.
pub fn run_step(rt: &HostRuntime, step: &[u8]) {
    let letter = cursor::number_at(step, 0, LETTER_BYTES);
    let title = cursor::number_at(step, letter.behind, LENGTH_BYTES);
    print::text(title.part(step));
    run_behind(rt, letter.value, step, title.behind_part());
}
