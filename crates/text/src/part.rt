// A part of a record by its positions.
ghost use Rattle.text.specs.Part.{AtPositions};

// The bytes at the positions from first to last, counted from 1, as far as there are any.
#[tactic(auto, using(crate::proofs::Parts::clipped))]
pub fn part_of(first: usize, last: usize, bytes: &[u8]) -> &[u8]
    ensures { AtPositions first last bytes.entry result }
{
    let to = last.min(bytes.len());
    let from = first.saturating_sub(1).min(to);
    &bytes[from..to]
}
