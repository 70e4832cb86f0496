// The first fault of a record at its place.
ghost use Rattle.std.specs.Prelude.{◌≡◌, [], ◌∷◌};
ghost use Rattle.refusal.specs.Rules.{first_broken};
ghost use Rattle.card_step.specs.Rules.{place_rule, nseq_rule, rules_of};

use card_adjustment::aj::Aj;
use card_content::field::Field;
use card_frame::a0::A0;
use card_frame::a9::A9;
use card_frame::l0::L0;
use card_frame::l9::L9;
use card_record::kind::Kind;
use card_record::reading::Reading;
use card_run::running::Running;
use card_sale::cv::Cv;
use refusal::{Cause, Fault};

// A kind that may not stand here.
#[tactic(auto, unfolding(refusal::specs::Rules::first_broken))]
fn place_fault(state: Running, kind: Kind) -> Result<(), Fault>
    ensures { result ≡ first_broken (place_rule state kind ∷ []) }
{
    refusal::rule(Cause::KindNotAllowedHere, 0, state.stage.allows(kind))
}

// Then the sequence number, which stands in a field of the kind.
#[tactic(auto, unfolding(refusal::specs::Rules::first_broken))]
fn front_fault(state: Running, kind: Kind, nseq: Field, number: u64) -> Result<(), Fault>
    ensures { result ≡ first_broken (place_rule state kind ∷ nseq_rule state nseq.0 number ∷ []) }
{
    place_fault(state, kind)?;
    nseq.rule(Cause::SequenceWrong, number == state.next_number())
}

// Of a sale, then the joined rules that look at it alone.
#[tactic(auto, unfolding(refusal::specs::Rules::first_broken, crate::specs::Rules::rules_of, crate::specs::Rules::joined_at))]
fn sale_fault(state: Running, cv: Cv) -> Result<(), Fault>
    ensures { result ≡ first_broken (rules_of state (Reading.Cv cv)) }
{
    front_fault(state, Kind::Cv, Cv::NSEQ, cv.nseq)?;
    cv.joined_fault()
}

// Of an adjustment likewise.
#[tactic(auto, unfolding(refusal::specs::Rules::first_broken, crate::specs::Rules::rules_of, crate::specs::Rules::joined_at))]
fn adjustment_fault(state: Running, aj: Aj) -> Result<(), Fault>
    ensures { result ≡ first_broken (rules_of state (Reading.Aj aj)) }
{
    front_fault(state, Kind::Aj, Aj::NSEQ, aj.nseq)?;
    aj.joined_fault()
}

// Of a batch trailer, then what it counts and sums.
#[tactic(auto, unfolding(refusal::specs::Rules::first_broken, crate::specs::Rules::rules_of, crate::specs::Rules::joined_at))]
fn l9_fault(state: Running, l9: L9) -> Result<(), Fault>
    ensures { result ≡ first_broken (rules_of state (Reading.L9 l9)) }
{
    front_fault(state, Kind::L9, L9::NSEQ, l9.nseq)?;
    L9::COUNT.rule(
        Cause::TrailerDisagrees,
        l9.count == state.batch.transactions,
    )?;
    L9::SUM.rule(Cause::TrailerDisagrees, state.batch.sums_to(l9.sum))
}

// Of the file trailer, then what it counts, itself included.
#[tactic(auto, unfolding(refusal::specs::Rules::first_broken, crate::specs::Rules::rules_of, crate::specs::Rules::joined_at))]
fn a9_fault(state: Running, a9: A9) -> Result<(), Fault>
    ensures { result ≡ first_broken (rules_of state (Reading.A9 a9)) }
{
    front_fault(state, Kind::A9, A9::NSEQ, a9.nseq)?;
    A9::COUNT.rule(Cause::TrailerDisagrees, a9.count == state.next_number())
}

// Of a known kind's record with a fault of its own, which comes behind that of its place.
#[tactic(auto, unfolding(refusal::specs::Rules::first_broken, crate::specs::Rules::rules_of, crate::specs::Rules::joined_at))]
fn own_fault(state: Running, kind: Kind, own: Fault) -> Result<(), Fault>
    ensures { result ≡ first_broken (rules_of state (Reading.Faulty kind own)) }
{
    place_fault(state, kind)?;
    Err(own)
}

// Of what reading answered of the record that comes next.
#[tactic(auto, unfolding(refusal::specs::Rules::first_broken, crate::specs::Rules::rules_of, crate::specs::Rules::joined_at))]
pub(crate) fn fault(state: Running, reading: Reading) -> Result<(), Fault>
    ensures { result ≡ first_broken (rules_of state reading) }
{
    match reading {
        Reading::Unknown => refusal::rule(Cause::KindUnknown, 1, false),
        Reading::Faulty(kind, own) => own_fault(state, kind, own),
        Reading::A0(a0) => front_fault(state, Kind::A0, A0::NSEQ, a0.nseq),
        Reading::L0(l0) => front_fault(state, Kind::L0, L0::NSEQ, l0.nseq),
        Reading::Cv(cv) => sale_fault(state, cv),
        Reading::Aj(aj) => adjustment_fault(state, aj),
        Reading::L9(l9) => l9_fault(state, l9),
        Reading::A9(a9) => a9_fault(state, a9),
    }
}
