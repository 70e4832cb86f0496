// A payroll file that is given record by record: the running state by value, and the answer once there is one.
ghost use Rattle.std.specs.Prelude.{◌≡◌};
ghost use Rattle.payroll_stream.specs.Feeding.{open_feeding, fed_of, closed_with, answer_of};

use crate::{behind_end, so_far};
use payroll_file::answer::Accepted;
use payroll_run::running::Running;
use refusal::Progress;

#[derive(Clone, Copy)]
pub struct Feeding {
    pub state: Running,
    pub progress: Progress<Accepted>,
}

impl Feeding {
    // A file of which nothing has come.
    pub fn open() -> Feeding
        ensures { result ≡ open_feeding }
    {
        Feeding {
            state: Running::open(),
            progress: None,
        }
    }

    // Takes the next record, without its line end.
    #[tactic(auto, unfolding(crate::specs::Feeding::fed_at))]
    pub fn feed(self, bytes: &[u8]) -> Feeding
        ensures { result ≡ fed_of self bytes.now }
    {
        match self.progress {
            None => Feeding {
                state: payroll_step::took(self.state, payroll_record::reading::read(bytes)),
                ..self
            },
            Some(answer) => Feeding {
                progress: Some(behind_end(self.state, answer)),
                ..self
            },
        }
    }

    // No record comes any more; these bytes stand behind the last line end.
    #[tactic(auto, unfolding(crate::specs::Feeding::closed_at))]
    pub fn close(self, rest: &[u8]) -> Feeding
        ensures { result ≡ closed_with self rest.now }
    {
        match self.progress {
            Some(_) => self,
            None => Feeding {
                progress: Some(payroll_file::file::answer_with_rest(self.state, rest)),
                ..self
            },
        }
    }

    // The answer so far.
    #[tactic(auto, unfolding(crate::specs::Stream::answer_at))]
    pub fn answer(self) -> Progress<Accepted>
        ensures { result ≡ answer_of self }
    {
        self.progress.or(so_far(self.state))
    }
}
