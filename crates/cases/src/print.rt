// Printing on standard output. No contract can say what is written.
const STDOUT: i32 = 1;

pub fn text(bytes: &[u8]) {
    io::write_all(STDOUT, bytes);
}

// One byte. Where a text is a byte long this is cheaper to prove than a byte string.
pub fn byte(b: u8) {
    let one = [b];
    text(&one);
}

// A number, with no zero in front.
pub fn number(n: u64) {
    io::print_decimal(STDOUT, n);
}

fn zeros(count: usize) {
    for _ in 0..count {
        byte(b'0');
    }
}

// A number with all its digits: zeros in front up to this width.
pub fn padded(n: u64, width: usize) {
    let mut digits = [0u8; 20];
    let count = io::decimal(n, &mut digits);
    zeros(width.saturating_sub(count));
    text(&digits[..count]);
}

// Bytes in hex, two digits each.
pub fn hex(bytes: &[u8]) {
    for byte in bytes {
        io::print_hex(STDOUT, *byte as u64, 2);
    }
}
