// Two files side by side.
use cases::{file, print};
use text::literal;

fn print_same(one: &[u8], other: &[u8]) {
    if literal::equals(one, other) {
        print::text(b"the same bytes\n");
    } else {
        print::text(b"not the same bytes\n");
    }
}

// Prints whether two files hold the same bytes.
pub fn print(rt: &HostRuntime, one: &[u8], other: &[u8]) {
    let mut left = file::room();
    let mut right = file::room();
    let left_size = file::load(rt, one, &mut left);
    let right_size = file::load(rt, other, &mut right);
    print_same(&left[..left_size], &right[..right_size]);
}
