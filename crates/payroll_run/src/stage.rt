// How far a payroll file has come, and which kinds may stand next.
ghost use Rattle.std.specs.Prelude.{◌≡◌};
ghost use Rattle.payroll_run.specs.Stage.{in_batch, placed};

use payroll_record::kind::Kind;
use refusal::Refusal;

#[derive(Clone, Copy, Default)]
pub enum Stage {
    // Nothing has come.
    #[default]
    Start,
    // The file header or a batch trailer came last.
    BetweenBatches,
    // A batch header or a Z came last.
    InBatch,
    // An A came last.
    BehindA,
    // A B came last.
    BehindB,
    // The file trailer has come.
    Ended,
    Refused(Refusal),
}

// Whether a record of this kind may stand in a batch, where a B and a Z may or may not.
fn may_stand_in_batch(b: bool, z: bool, kind: Kind) -> bool
    ensures { result ≡ in_batch b z kind }
{
    match kind {
        Kind::SegmentA | Kind::BatchTrailer => true,
        Kind::SegmentB => b,
        Kind::SegmentZ => z,
        Kind::FileHeader | Kind::BatchHeader | Kind::FileTrailer => false,
    }
}

impl Stage {
    // Whether a record of this kind may stand here; a Z only in a return.
    pub fn allows(self, is_return: bool, kind: Kind) -> bool
        ensures { result ≡ placed self is_return kind }
    {
        match self {
            Stage::Start => matches!(kind, Kind::FileHeader),
            Stage::BetweenBatches => matches!(kind, Kind::BatchHeader | Kind::FileTrailer),
            Stage::InBatch => may_stand_in_batch(false, false, kind),
            Stage::BehindA => may_stand_in_batch(true, is_return, kind),
            Stage::BehindB => may_stand_in_batch(false, is_return, kind),
            Stage::Ended | Stage::Refused(_) => false,
        }
    }
}
