// The rows of a card file's bytes, as far as its lines are finished.
ghost use Rattle.std.specs.Prelude.{◌≡◌};
ghost use Rattle.wording.specs.Put.{Puts};
ghost use Rattle.adjustment_rows.specs.Rows.{is_adjustment, has_row, row_in, PutsRows};

use crate::row;
use card_adjustment::aj::Aj;
use wording::put;

// How many bytes the finished lines take, and how many bytes of the output are rows.
#[derive(Clone, Copy)]
pub struct Rows {
    pub lines: usize,
    pub size: usize,
}

// Whether a record is of kind AJ, and of its width.
fn is_adjustment(bytes: &[u8]) -> bool
    ensures { result ≡ is_adjustment bytes.now }
{
    text::literal::equals(text::part::part_of(1, 2, bytes), b"AJ") && bytes.len() == Aj::WIDTH
}

// Whether a piece before an LF is such a record with its CR.
fn has_row(piece: &[u8]) -> bool
    ensures { result ≡ has_row piece.now }
{
    lines::ends_in_cr(piece) && is_adjustment(lines::without_last(piece))
}

// Puts the row of a piece, where it has one, behind the first `at` bytes, and answers how many bytes stand there then.
fn put_piece(number: u64, piece: &[u8], out: &mut [u8], at: usize) -> usize
    ensures { Puts (row_in number piece.now) out.old at result out.new }
{
    if has_row(piece) {
        return row::put_row(number, lines::without_last(piece), out, at);
    }
    put::text(b"", out, at)
}

// Puts the rows of the finished lines at the start of an output, as far as there is room. The first line is the file's record of this number.
// (`lines::take_pieces` takes a closure that may be called again and again, and such a closure writes to nothing lent.)
pub fn put_rows(number: u64, bytes: &[u8], out: &mut [u8]) -> Rows
    ensures { PutsRows number bytes.now out.old result out.new }
{
    let mut next = number;
    let mut size = 0;
    let mut rest = bytes;
    while let Some((piece, behind)) = lines::first_piece(rest) {
        size = put_piece(next, piece, out, size);
        next = totals::sum::added(next, 1);
        rest = behind;
    }
    Rows {
        lines: bytes.len() - rest.len(),
        size,
    }
}
