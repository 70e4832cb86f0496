// How far a card file has come, and which kinds may stand next.
ghost use Rattle.std.specs.Prelude.{◌≡◌};
ghost use Rattle.card_run.specs.Stage.{is_open, placed};

use card_record::kind::Kind;
use refusal::Refusal;

#[derive(Clone, Copy)]
pub enum Stage {
    // Nothing has come.
    Start,
    // A0 or an L9 came last.
    BetweenBatches,
    // L0, a CV or an AJ came last.
    InBatch,
    // A9 has come.
    Ended,
    // And the file was closed.
    Closed,
    Refused(Refusal),
}

impl Stage {
    // Whether a record is expected.
    pub fn is_open(self) -> bool
        ensures { result ≡ is_open self }
    {
        matches!(self, Stage::Start | Stage::BetweenBatches | Stage::InBatch)
    }

    // Whether a record of this kind may stand here.
    pub fn allows(self, kind: Kind) -> bool
        ensures { result ≡ placed self kind }
    {
        match self {
            Stage::Start => matches!(kind, Kind::A0),
            Stage::BetweenBatches => matches!(kind, Kind::L0 | Kind::A9),
            Stage::InBatch => matches!(kind, Kind::Cv | Kind::Aj | Kind::L9),
            Stage::Ended | Stage::Closed | Stage::Refused(_) => false,
        }
    }
}
