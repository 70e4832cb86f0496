// The cut of a file's bytes into pieces at each LF.
#![tactic(auto)]

ghost use Rattle.std.specs.Prelude.{◌≡◌, ℕ, List, MatchOption};
ghost use mathlib.Core.List.{foldl};
ghost use Rattle.lines.specs.Steps.{Means, NoPiece, FirstPiece};
ghost use Rattle.text.specs.Part.{PartOf};
ghost use Rattle.lines.specs.Lines.{next_lf, ends_in_cr, without_last, cut};

use memchr::memchr;

// The next LF from a place on.
pub fn next_lf(bytes: &[u8], from: usize) -> Option<usize>
    ensures { result ≡ next_lf from bytes.now }
{
    if bytes.len() < from {
        return None;
    }
    let place = memchr(b'\n', &bytes[from..])?;
    Some(from + place)
}

// Whether the last byte of a piece is a CR.
pub fn ends_in_cr(piece: &[u8]) -> bool
    ensures { result ≡ ends_in_cr piece.now }
{
    piece.last().copied() == Some(b'\r')
}

// A piece without its last byte.
pub fn without_last(piece: &[u8]) -> &[u8]
    ensures { PartOf piece.entry 0 (without_last piece.now) result }
{
    &piece[..piece.len().saturating_sub(1)]
}

// The first piece that an LF ends, and what stands behind that LF.
pub fn first_piece(bytes: &[u8]) -> Option<(&[u8], &[u8])>
    ensures { MatchOption result (NoPiece bytes.now) (λ p. FirstPiece bytes.now p.0.now p.1.now) }
{
    let end = next_lf(bytes, 0)?;
    let piece = &bytes[..end];
    let behind = &bytes[end + 1..];
    Some((piece, behind))
}

// Takes the pieces that an LF ends, one after the other, and hands back what is left behind the last LF. (A `while`: an iterator would keep what is left to
// itself.)
pub fn take_pieces<S: Drop, F: Fn(S, &[u8]) -> S>(state: S, bytes: &[u8], step: F) -> (S, &[u8])
    requires { F.IsAlwaysCallable step }
    ensures taken { (meant : S → List ℕ → S) → Means (F.post step) meant → result.0 ≡ foldl meant state (cut bytes.now).pieces }
    ensures left { result.1.now ≡ (cut bytes.now).rest }
{
    let mut next = state;
    let mut rest = bytes;
    while let Some((piece, behind)) = first_piece(rest) {
        next = step(next, piece);
        rest = behind;
    }
    (next, rest)
}
