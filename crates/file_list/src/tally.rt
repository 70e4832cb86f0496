// How many files there were, and what was said of them.
ghost use Rattle.std.specs.Prelude.{◌≡◌};
ghost use Rattle.wording.specs.Put.{Puts};
ghost use Rattle.file_list.specs.Tally.{no_file, one_file_more, tally_line};

use totals::sum;
use wording::line;

// What is said of one file.
#[derive(Clone, Copy)]
pub enum Said {
    Accepted,
    Refused,
    // There is no verdict.
    Unreadable,
}

#[derive(Clone, Copy, Default)]
pub struct Tally {
    pub files: u64,
    pub accepted: u64,
    pub refused: u64,
    pub unreadable: u64,
}

impl Tally {
    // No file.
    pub fn none() -> Tally
        ensures { result ≡ no_file }
    {
        Tally::default()
    }

    // One file more, each number at most the largest of 64 bits.
    #[tactic(auto, unfolding(crate::specs::Tally::one_file_more))]
    pub fn with(self, said: Said) -> Tally
        ensures { result ≡ one_file_more self said }
    {
        let counted = Tally {
            files: sum::added(self.files, 1),
            ..self
        };
        match said {
            Said::Accepted => Tally {
                accepted: sum::added(self.accepted, 1),
                ..counted
            },
            Said::Refused => Tally {
                refused: sum::added(self.refused, 1),
                ..counted
            },
            Said::Unreadable => Tally {
                unreadable: sum::added(self.unreadable, 1),
                ..counted
            },
        }
    }
}

// `FILES 3 ACCEPTED 1 REFUSED 1 UNREADABLE 1`
pub fn put_tally(tally: Tally, out: &mut [u8], at: usize) -> usize
    ensures { Puts (tally_line tally) out.old at result out.new }
{
    let files = line::word(b"FILES", tally.files, out, at);
    let accepted = line::word(b" ACCEPTED", tally.accepted, out, files);
    let refused = line::word(b" REFUSED", tally.refused, out, accepted);
    line::line(b" UNREADABLE", tally.unreadable, out, refused)
}
