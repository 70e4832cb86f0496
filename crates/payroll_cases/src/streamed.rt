// A payroll file that comes in chunks: its answer is proved to be that of the file read whole. Lines over `cases::cuts`, as those of a card file are.
ghost use Rattle.std.specs.Prelude.{◌≡◌, Some, cond, ◌+◌, ◌≤◌, length};
ghost use Rattle.text.specs.Literal.{same_bytes};
ghost use Rattle.payroll_file.specs.PayrollFile.{check_of};
ghost use Rattle.answer_rows.specs.Payroll.{payroll_numbers};

use answer_rows::payroll::progress_row;
use cases::{cuts, row};
use payroll_file::answer::Accepted;
use payroll_stream::Stream;
use refusal::Progress;

// The answer of a file that is cut at places that look random.
pub fn in_chunks(file: &[u8]) -> Progress<Accepted>
    ensures { result ≡ Some (check_of file.now) }
{
    let stream = cuts::in_chunks(Stream::open(), file, |stream, chunk| stream.take(chunk));
    stream.end().answer()
}

// The answer of a file that is cut in two at a place.
fn in_two(file: &[u8], place: usize) -> Progress<Accepted>
    requires { place ≤ length file.now }
    ensures { result ≡ Some (check_of file.now) }
{
    let stream = cuts::in_two(
        Stream::open(),
        file,
        place,
        |stream, chunk| stream.take(chunk),
    );
    stream.end().answer()
}

// How many of all the cuts of a file in two give this row of numbers: all of them, or none.
#[tactic(auto, unfolding(payroll_stream::specs::Stream::progress_row))]
pub fn cuts_alike(file: &[u8], whole: &[u64]) -> u64
    ensures { result ≡ cond (same_bytes (payroll_numbers (check_of file.now)) whole.now) (length file.now + 1) 0 }
{
    cuts::how_many(file, |place| {
        row::same(&progress_row(in_two(file, place)), whole)
    })
}
