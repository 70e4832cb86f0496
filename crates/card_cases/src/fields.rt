// The field question: what is handed back of each case, a line each.
use cases::hash::hash;
use cases::layout::Layout;
use cases::source::Source;
use cases::{answer, print};
use refusal::Refusal;

// A field's number takes four bytes, and a record stands behind its length.
const FIELDS: Layout = Layout {
    widths: [4, 0],
    size: None,
};

// `P length hash`
fn print_part(part: &[u8]) {
    print::byte(b'P');
    answer::next_number(part.len() as u64);
    answer::next_number(hash(part));
}

// The refusal, and whether the part is empty then.
fn print_refused(refusal: Refusal, part: &[u8]) {
    answer::print_refusal(refusal);
    if !part.is_empty() {
        print::text(b" with a part");
    }
}

// Prints both answers on a record and a field's number, a line.
fn print_field(record: &[u8], number: u64) {
    let part = sale_field::field(record, number);
    match sale_field::field_answer(record, number) {
        Ok(()) => print_part(part),
        Err(refusal) => print_refused(refusal, part),
    }
    print::byte(b'\n');
}

// Prints the line of each case of a file.
fn print_file(rt: &HostRuntime, path: &[u8]) {
    FIELDS.print_file(rt, path, |[number, _], record| print_field(record, number));
}

// Prints the title and the lines of a source.
pub fn print(rt: &HostRuntime, source: Source) {
    source.print_title(b", fields");
    match source {
        Source::Outside => print_file(rt, b"outside_fields.cases"),
        Source::Own => print_file(rt, b"own_fields.cases"),
    }
}
