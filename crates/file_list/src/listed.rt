// What comes of a list of files, and what is printed of it at the end.
ghost use Rattle.std.specs.Prelude.{ℕ, ◌≤◌, List, length};
ghost use Rattle.wording.specs.Put.{Puts};
ghost use Rattle.file_list.specs.Tally.{tally_line};

use crate::tally;
use crate::tally::Tally;
use program::mistake::Mistake;
use program::outcome::Teller;
use program::{mistake, outcome};

// The tally, where every file has its line; or the mistake that ends the list before its last file.
pub type Listed = Result<Tally, Mistake>;

// Tells the tally.
struct TallyLine;

impl Teller for TallyLine {
    type Answer = Tally;

    ghost text_of = { λ _ tally. tally_line tally };

    #[tactic(auto, using(crate::proofs::Tallies::tally_short))]
    fn put(&self, tally: Tally, out: &mut [u8], at: usize) -> usize {
        tally::put_tally(tally, out, at)
    }
}

// Prints the tally, or tells the mistake, by one call. (A mistake goes to `tell`: `outcome::print` would tell a failed write of it once more,
// as a verdict that cannot be printed.)
pub fn print(rt: &HostRuntime, listed: Listed) {
    match listed {
        Ok(_) => outcome::print(rt, &TallyLine, listed),
        Err(mistake) => mistake::tell(rt, mistake),
    }
}
