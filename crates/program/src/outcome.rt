// What a program says of its work, by one call: the text of its answer, or the sentence of a mistake.
ghost use Rattle.std.specs.Prelude.{ℕ, ◌≤◌, ◌≡◌, List, length};
ghost use Rattle.wording.specs.Put.{Puts};
ghost use Rattle.program.specs.Outcome.{told_text, standard_of};

use crate::mistake;
use crate::mistake::{Failed, Mistake};
use files::writing;
use files::writing::Standard;

// Room for every text.
const ROOM: usize = 448;

// What tells an answer.
pub trait Teller {
    type Answer: Copy;

    ghost text_of: { Self → Self.Answer → List ℕ };

    // Puts the answer's text behind the first `at` bytes, and answers how many bytes stand there then.
    fn put(&self, answer: Self::Answer, out: &mut [u8], at: usize) -> usize
        ensures puts { Puts (text_of self.now answer) out.old at result out.new }
        ensures short { length (text_of self.now answer) ≤ 448 };
}

// The answer's text, or the mistake's sentence.
pub fn put<T: Teller>(
    teller: &T,
    outcome: Result<T::Answer, Mistake>,
    out: &mut [u8],
    at: usize,
) -> usize
    ensures puts { Puts (told_text (T.text_of teller.now) outcome) out.old at result out.new }
    ensures short { length (told_text (T.text_of teller.now) outcome) ≤ 448 }
{
    match outcome {
        Ok(answer) => teller.put(answer, out, at),
        Err(mistake) => mistake::put(mistake, out, at),
    }
}

// Where an outcome's text goes: an answer to standard output, a mistake to standard error.
pub fn standard<A>(outcome: &Result<A, Mistake>) -> Standard
    ensures { result ≡ standard_of outcome.now }
{
    match outcome {
        Ok(_) => Standard::Output,
        Err(_) => Standard::Error,
    }
}

// Writes an outcome's text, and no other.
fn write<T: Teller>(rt: &HostRuntime, teller: &T, outcome: Result<T::Answer, Mistake>, text: &[u8])
    requires { text.now ≡ told_text (T.text_of teller.now) outcome }
{
    if let Err(error) = writing::write_to(rt, standard(&outcome), text) {
        mistake::tell(rt, Mistake::System(Failed::Print, error));
    }
}

// Prints the answer, or tells the mistake, by one call.
pub fn print<T: Teller>(rt: &HostRuntime, teller: &T, outcome: Result<T::Answer, Mistake>) {
    let mut room = [0u8; ROOM];
    let size = put(teller, outcome, &mut room, 0);
    write(rt, teller, outcome, &room[..size]);
}
