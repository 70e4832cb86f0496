// A card file that comes in chunks: its answer is proved to be that of the file read whole. Lines over `cases::cuts`, as those of a payroll file are.
ghost use Rattle.std.specs.Prelude.{◌≡◌, cond, ◌+◌, ◌≤◌, length};
ghost use Rattle.card_file.specs.CardFile.{check_of};
ghost use Rattle.cases.specs.CardNumbers.{card_numbers};
ghost use Rattle.text.specs.Literal.{same_bytes};

use card_run::answer::CardAnswer;
use card_stream::Stream;
use cases::{cuts, row};

// The answer of a file that is cut at places that look random.
pub fn in_chunks(edition: u64, file: &[u8]) -> CardAnswer
    ensures { result ≡ check_of edition file.now }
{
    let stream = cuts::in_chunks(
        Stream::open(edition),
        file,
        |stream, chunk| stream.take(chunk),
    );
    stream.end().answer()
}

// The answer of a file that is cut in two at a place.
fn in_two(edition: u64, file: &[u8], place: usize) -> CardAnswer
    requires { place ≤ length file.now }
    ensures { result ≡ check_of edition file.now }
{
    let stream = cuts::in_two(Stream::open(edition), file, place, |stream, chunk| {
        stream.take(chunk)
    });
    stream.end().answer()
}

// How many of all the cuts of a file in two give this row of numbers: all of them, or none.
pub fn cuts_alike(edition: u64, file: &[u8], whole: &[u64]) -> u64
    ensures { result ≡ cond (same_bytes (card_numbers (check_of edition file.now)) whole.now) (length file.now + 1) 0 }
{
    cuts::how_many(file, |place| {
        row::same(&row::card_row(in_two(edition, file, place)), whole)
    })
}
