// How a line tells of an output: the outside cases by its hash, our own by all its bytes.
use cases::{hash, print};

pub fn print_hash(out: &[u8]) {
    print::number(hash::hash(out));
}

// In hex, between brackets.
pub fn print_hex(out: &[u8]) {
    print::byte(b'[');
    print::hex(out);
    print::byte(b']');
}
