// The answer of a file to a question that writes into an output.
ghost use Rattle.std.specs.Prelude.{◌≡◌};
ghost use Rattle.card_file.specs.Room.{answer_with_room};

use card_run::answer::CardAnswer;
use refusal::{Cause, Refusal};

// 1 and 22, then 2 for an output with less room than is needed, then the file's own.
#[tactic(auto, using(crate::proofs::Rooms::room_fault), unfolding(crate::specs::Room::answer_with_room))]
pub fn check_with_room(edition: u64, file: &[u8], need: usize, room: usize) -> CardAnswer
    ensures { result ≡ answer_with_room edition file.now need room }
{
    let room_enough = refusal::rule(Cause::OutputTooShort, 0, need <= room);
    match refusal::earlier(edition::known::fault_of(edition), room_enough) {
        Ok(()) => crate::check(edition, file),
        Err(fault) => Some(Err(Refusal::nowhere(fault.cause))),
    }
}
