// Many payroll files in one call: a line for each as it is checked, and the tally of all.
ghost use Rattle.std.specs.Prelude.{◌-◌};
ghost use Rattle.file_list.specs.Listed.{ListedAll};
ghost use Rattle.payroll_program.specs.Checked.{Checked};
ghost use Rattle.payroll_program.specs.Listing.{said_of, words_of};

use crate::outcome::PayrollOutcome;
use crate::{check, verdict};
use file_list::list::Files;
use file_list::listed::Listed;
use file_list::tally::Said;
use file_list::{line, list};

// The number of the first argument that names a file.
const FIRST: usize = 1;

// Payroll files, each of which is checked alike.
struct PayrollFiles;

impl Files for PayrollFiles {
    type Outcome = PayrollOutcome;

    ghost said_of = { said_of };

    ghost words_of = { words_of };

    ghost Checked = { λ _ outcome. Checked outcome };

    fn check(&self, rt: &HostRuntime, name: &[u8]) -> PayrollOutcome {
        check::check_file(rt, name)
    }

    fn said(outcome: PayrollOutcome) -> Said {
        match outcome {
            Ok(Ok(_)) => Said::Accepted,
            Ok(Err(_)) => Said::Refused,
            Err(_) => Said::Unreadable,
        }
    }

    #[tactic(auto, using(crate::proofs::Texts::verdict_short))]
    fn put_words(outcome: PayrollOutcome, out: &mut [u8], at: usize) -> usize {
        match outcome {
            Ok(answer) => verdict::put_verdict(answer, out, at),
            Err(_) => line::put_unreadable(out, at),
        }
    }
}

// Lists the files that the arguments name, where there are `count` arguments with the program's own name.
pub fn list(rt: &HostRuntime, count: usize) -> Listed
    ensures { ListedAll said_of Checked (count - 1) result }
{
    list::list(rt, &PayrollFiles, FIRST, count)
}
