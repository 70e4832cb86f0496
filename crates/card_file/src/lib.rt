// A card file, record by record and read whole.
#![tactic(auto)]

ghost use Rattle.std.specs.Prelude.{◌≡◌};
ghost use Rattle.card_file.specs.Feeding.{fed_of};
ghost use Rattle.card_file.specs.CardFile.{line_of, unended_of, end_of, check_of};

use card_run::answer::CardAnswer;
use card_run::running::Running;
use refusal::Cause;

pub mod room;

// Takes the next record, without its line end.
pub fn feed(state: Running, bytes: &[u8]) -> Running
    ensures { result ≡ fed_of state bytes.now }
{
    card_step::took(state, card_quick::read(state.edition, bytes))
}

// Takes the piece before an LF: a record, where a CR ends it.
pub fn take_line(state: Running, piece: &[u8]) -> Running
    ensures { result ≡ line_of state piece.now }
{
    if lines::ends_in_cr(piece) {
        return feed(state, lines::without_last(piece));
    }
    no_line_end(state)
}

// What is left has no line end: 13 behind A9, else 3.
#[tactic(auto, unfolding(crate::specs::CardFile::unended_at))]
pub fn no_line_end(state: Running) -> Running
    ensures { result ≡ unended_of state }
{
    if state.stage.is_open() {
        return state.refused(Cause::NoLineEnd, 0);
    }
    state.late()
}

// What is left behind the last line end: nothing, and the file is closed, or bytes without a line end.
#[tactic(auto, using(crate::proofs::Steps::nothing_left, crate::proofs::Steps::bytes_left))]
pub fn end(state: Running, rest: &[u8]) -> Running
    ensures { result ≡ end_of state rest.now }
{
    if rest.is_empty() {
        return state.close();
    }
    no_line_end(state)
}

// The answer of a file of this edition.
pub fn check(edition: u64, file: &[u8]) -> CardAnswer
    ensures { result ≡ check_of edition file.now }
{
    let (state, rest) = lines::take_pieces(Running::open(edition), file, take_line);
    end(state, rest).answer()
}
