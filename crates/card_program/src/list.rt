// Many card files in one call: a line for each as it is checked, and the tally of all.
ghost use Rattle.std.specs.Prelude.{◌-◌};
ghost use Rattle.edition.specs.Edition.{edition_of};
ghost use Rattle.card_program.specs.Checked.{Checked};
ghost use Rattle.card_program.specs.Listing.{said_of, words_of, ListedUnder};

use crate::outcome::Outcome;
use crate::verdict::Lines;
use crate::{check, verdict};
use file_list::list::Files;
use file_list::listed::Listed;
use file_list::tally::Said;
use file_list::{line, list};
use program::mistake::Mistake;

// The number of the first argument that names a file.
const FIRST: usize = 2;

// Card files that are checked under one edition.
#[derive(Clone, Copy)]
struct CardFiles {
    edition: u64,
}

impl Files for CardFiles {
    type Outcome = Outcome;

    ghost said_of = { said_of };

    ghost words_of = { words_of };

    ghost Checked = { λ files outcome. Checked files.edition outcome };

    fn check(&self, rt: &HostRuntime, name: &[u8]) -> Outcome {
        check::check_file(rt, self.edition, name)
    }

    fn said(outcome: Outcome) -> Said {
        match outcome {
            Ok(Some(Ok(_))) => Said::Accepted,
            Ok(Some(Err(_))) => Said::Refused,
            Ok(None) | Err(_) => Said::Unreadable,
        }
    }

    #[tactic(auto, using(crate::proofs::Texts::words_short))]
    fn put_words(outcome: Outcome, out: &mut [u8], at: usize) -> usize {
        match outcome {
            Ok(Some(answer)) => verdict::put_verdict(Lines::Sales, Some(answer), out, at),
            Ok(None) | Err(_) => line::put_unreadable(out, at),
        }
    }
}

// Lists the files that the arguments name, where there are `count` arguments with the program's own name, under the edition that these bytes state.
pub fn list_under(rt: &HostRuntime, edition: &[u8], count: usize) -> Listed
    ensures { ListedUnder (edition_of edition.now) (count - 2) result }
{
    let edition = edition::edition_of(edition).ok_or(Mistake::EditionNoNumber)?;
    list::list(rt, &CardFiles { edition }, FIRST, count)
}
