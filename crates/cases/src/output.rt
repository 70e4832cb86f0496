// The outputs that cases write into.
ghost use Rattle.std.specs.Prelude.{◌≡◌, length};
ghost use Rattle.cases.specs.Output.{pattern};

use crate::print;

// The byte that an output begins with, and how much each byte is more than the one before it.
const FIRST: u8 = 3;

const STEP: u8 = 7;

// Fills an output as every case finds it: byte i is (i * 7 + 3) mod 256.
#[tactic(auto, using(crate::proofs::Pattern::more, crate::proofs::Pattern::next), unfolding(crate::specs::Output::pattern))]
pub fn fill(out: &mut [u8])
    ensures { out.new ≡ pattern (length out.old) }
{
    let mut byte = FIRST;
    for place in out.iter_mut() {
        *place = byte;
        byte = byte.wrapping_add(STEP);
    }
}

// Says that a case asks for a longer output than there is room for.
pub fn print_too_long() {
    print::text(b"an output is too long\n");
}

// Lends the front of a room as an output of so many bytes, or says that it is too long.
pub fn lend<F: FnOnce(&mut [u8])>(room: &mut [u8], size: u64, work: F)
    requires { F.IsAlwaysCallable work }
{
    let size = size as usize;
    if room.len() < size {
        print_too_long();
    } else {
        work(&mut room[..size]);
    }
}
