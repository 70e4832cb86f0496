// What the system says of an error, in its own words, as a line.
ghost use Rattle.wording.specs.Put.{Puts};
ghost use Rattle.program.specs.Reason.{reason_of, other_reason};

use wording::line::line;
use wording::put::text;

// The errors of disks and of what is written to; of any other its number.
#[tactic(auto, unfolding(crate::specs::Reason::other_reason))]
fn put_other(error: u64, out: &mut [u8], at: usize) -> usize
    ensures { Puts (other_reason error) out.old at result out.new }
{
    match error {
        5 => text(b"Input/output error\n", out, at),
        9 => text(b"Bad file descriptor\n", out, at),
        27 => text(b"File too large\n", out, at),
        28 => text(b"No space left on device\n", out, at),
        30 => text(b"Read-only file system\n", out, at),
        _ => line(b"error", error, out, at),
    }
}

// The errors of names come first.
#[tactic(auto, unfolding(crate::specs::Reason::reason_of))]
pub(crate) fn put(error: u64, out: &mut [u8], at: usize) -> usize
    ensures { Puts (reason_of error) out.old at result out.new }
{
    match error {
        2 => text(b"No such file or directory\n", out, at),
        13 => text(b"Permission denied\n", out, at),
        20 => text(b"Not a directory\n", out, at),
        21 => text(b"Is a directory\n", out, at),
        36 => text(b"File name too long\n", out, at),
        _ => put_other(error, out, at),
    }
}
