// The masked copy of a card file.
#![tactic(auto)]

ghost use Rattle.std.specs.Prelude.{◌≡◌, ◌++◌, ◌≤◌, length, drop};
ghost use Rattle.card_mask.specs.Masked.{masked_piece, masked_file, MasksLines};
ghost use Rattle.card_mask.specs.Mask.{Masks};

use card_record::card_part::card_part;
use card_run::answer::CardAnswer;

// Masks the card's part of one piece, and nothing else.
fn mask_piece(piece: &mut [u8])
    ensures { piece.new ≡ masked_piece piece.old }
{
    if !lines::ends_in_cr(piece) {
        return;
    }
    if let Some(from) = card_part(lines::without_last(piece)) {
        pan::mask(&mut piece[from..from + pan::WIDTH]);
    }
}

// Masks every record that a line end closes in these bytes, and answers how many bytes stand before the unfinished one.
// (By places: `lines::take_pieces` lends each piece to be read, and here each is written where it stands.)
pub fn mask_lines(bytes: &mut [u8]) -> usize
    ensures { MasksLines bytes.old result bytes.new }
{
    let mut at = 0;
    while let Some(end) = lines::next_lf(bytes, at) {
        mask_piece(&mut bytes[at..end]);
        at = end + 1;
    }
    at
}

// Copies a file into the front of an output that has room for it, and masks the copy.
fn write_masked(file: &[u8], out: &mut [u8])
    requires { length file.now ≤ length out.old }
    ensures { out.new ≡ masked_file file.now ++ drop (length file.now) out.old }
{
    let copy = &mut out[..file.len()];
    copy.copy_from_slice(file);
    mask_lines(copy);
}

// Writes the masked copy of an accepted file into the front of the output; refused, it changes nothing.
#[tactic(auto, using(card_file::proofs::Rooms::has_room), unfolding(crate::specs::Mask::masked_into))]
pub fn mask(edition: u64, file: &[u8], out: &mut [u8]) -> CardAnswer
    ensures { Masks edition file.now out.old result out.new }
{
    let answer = card_file::room::check_with_room(edition, file, file.len(), out.len());
    if let Some(Ok(_)) = answer {
        write_masked(file, out);
    }
    answer
}
