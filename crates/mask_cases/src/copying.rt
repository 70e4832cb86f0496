// The masked copy of a card file that comes in chunks: the bytes so far stand in front of the copy, and each time the records that are finished are masked
// where they stand.
ghost use Rattle.std.specs.Prelude.{◌≡◌, ◌≤◌, length};
ghost use Rattle.card_mask.specs.Masked.{masked_file};
ghost use Rattle.mask_cases.specs.Copying.{MasksBetween, copied_into, put_into, alike_of};

use card_run::answer::CardAnswer;
use cases::cuts::Cuts;
use cases::hash::hash;
use cases::output;

// Masks the records that are finished between two places, and answers where the last of them ends.
#[tactic(auto, using(crate::proofs::Copies::ends_within))]
fn mask_between(copy: &mut [u8], done: usize, end: usize) -> usize
    requires done_le_end { done ≤ end }
    requires end_in_bounds { end ≤ length copy.old }
    ensures { MasksBetween copy.old done end result copy.new }
{
    done + card_mask::mask_lines(&mut copy[done..end])
}

// Masks a copy that is cut at places that look random. There are as many chunks as bytes, and those behind the last byte are empty. Not by `cuts::in_chunks`,
// which lends the chunks to be read: here they are masked where they stand.
fn mask_in_chunks(copy: &mut [u8])
    ensures { copy.new ≡ masked_file copy.old }
{
    let mut cuts = Cuts::of(copy);
    let end = copy.len();
    let mut done = 0;
    let mut at = 0;
    for _ in 0..end {
        cuts = cuts.next();
        at = cuts.behind(at, end);
        done = mask_between(copy, done, at);
    }
    mask_between(copy, done, end);
}

// Masks a copy that is cut in two at a place.
fn mask_in_two(copy: &mut [u8], place: usize)
    requires { place ≤ length copy.old }
    ensures { copy.new ≡ masked_file copy.old }
{
    let done = mask_between(copy, 0, place);
    let end = copy.len();
    mask_between(copy, done, end);
}

// Fills an output, and puts the copy of an accepted file in front where there is room for it, masked by `mask`.
fn put<F: FnOnce(&mut [u8])>(answer: CardAnswer, file: &[u8], out: &mut [u8], mask: F)
    requires callable { (copy : _) → length copy.now ≡ length file.now → F.pre mask copy }
    requires masks { (copy after : _) → F.post mask copy tt after → after.now ≡ masked_file copy.now }
    ensures { out.new ≡ put_into answer file.now (length out.old) }
{
    output::fill(out);
    let length = file.len();
    if let Some(Ok(_)) = answer
        && length <= out.len()
    {
        out[..length].copy_from_slice(file);
        mask(&mut out[..length]);
    }
}

// Fills an output, and puts the copy of an accepted file in front, masked in chunks.
pub fn put_in_chunks(answer: CardAnswer, file: &[u8], out: &mut [u8])
    ensures { out.new ≡ put_into answer file.now (length out.old) }
{
    put(answer, file, out, mask_in_chunks);
}

// The same, cut in two at a place.
fn put_in_two(answer: CardAnswer, file: &[u8], place: usize, out: &mut [u8])
    requires { place ≤ length file.now }
    ensures { out.new ≡ put_into answer file.now (length out.old) }
{
    put(answer, file, out, |copy| mask_in_two(copy, place));
}

// How many of all the cuts of a file in two give an output of this hash. Not by `cuts::how_many`, whose test would have to carry the output from cut to cut.
pub fn cuts_alike(answer: CardAnswer, file: &[u8], out: &mut [u8], whole: u64) -> u64
    ensures { result ≡ alike_of answer file.now (length out.old) whole }
{
    let mut alike = 0;
    for place in 0..file.len() + 1 {
        put_in_two(answer, file, place, out);
        if hash(out) == whole {
            alike += 1;
        }
    }
    alike
}
