// The state behind a record that keeps the rules.
ghost use Rattle.std.specs.Prelude.{◌≡◌};
ghost use Rattle.card_step.specs.Behind.{
  counted,
  headed,
  sold,
  credited,
  debited,
  one_batch_more,
  behind_a0,
  behind_l0,
  behind_sale,
  behind_adjustment,
  behind_l9,
  behind_a9,
  behind,
};

use card_adjustment::aj::Aj;
use card_frame::a0::A0;
use card_record::reading::Reading;
use card_run::answer::Accepted;
use card_run::batch::OpenBatch;
use card_run::running::Running;
use card_run::stage::Stage;
use card_sale::cv::Cv;
use totals::amounts::Totals;

// The numbers with one record more.
fn counted(numbers: Accepted) -> Accepted
    ensures { result ≡ counted numbers }
{
    Accepted {
        records: totals::sum::added(numbers.records, 1),
        ..numbers
    }
}

// With the date and the movement that A0 states.
fn headed(numbers: Accepted, a0: A0) -> Accepted
    ensures { result ≡ headed a0 numbers }
{
    Accepted {
        date: a0.date,
        movement: a0.movement,
        ..numbers
    }
}

// With one sale more, forecast or settled.
fn sold(numbers: Accepted, forecast: bool, sale: Totals) -> Accepted
    ensures { result ≡ sold forecast sale numbers }
{
    Accepted {
        totals: numbers.totals.one_more(forecast, sale),
        ..numbers
    }
}

// With one credit more.
fn credited(numbers: Accepted, net: u64) -> Accepted
    ensures { result ≡ credited net numbers }
{
    Accepted {
        credits: numbers.credits.one_more(net),
        ..numbers
    }
}

// With one debit more.
fn debited(numbers: Accepted, net: u64) -> Accepted
    ensures { result ≡ debited net numbers }
{
    Accepted {
        debits: numbers.debits.one_more(net),
        ..numbers
    }
}

// With one batch more.
fn one_batch_more(numbers: Accepted) -> Accepted
    ensures { result ≡ one_batch_more numbers }
{
    Accepted {
        batches: totals::sum::added(numbers.batches, 1),
        ..numbers
    }
}

// Behind A0: its date and movement are the file's.
fn behind_a0(state: Running, a0: A0) -> Running
    ensures { result ≡ behind_a0 a0 state }
{
    state.moved(
        Stage::BetweenBatches,
        headed(counted(state.numbers), a0),
        state.batch,
    )
}

// Behind L0: a batch of no transaction.
fn behind_l0(state: Running) -> Running
    ensures { result ≡ behind_l0 state }
{
    state.moved(Stage::InBatch, counted(state.numbers), OpenBatch::none())
}

// Behind a sale: one more, of what is payable.
fn behind_sale(state: Running, cv: Cv) -> Running
    ensures { result ≡ behind_sale cv state }
{
    let payable = cv.payable_amounts();
    state.moved(
        Stage::InBatch,
        sold(
            counted(state.numbers),
            cv.is_forecast(),
            Totals::of_sale(payable),
        ),
        state.batch.with_added(payable.gross),
    )
}

// Behind an adjustment: one credit more, which the batch adds, or one debit more, which it takes.
fn behind_adjustment(state: Running, aj: Aj) -> Running
    ensures { result ≡ behind_adjustment aj state }
{
    let net = aj.amounts.net;
    let numbers = counted(state.numbers);
    if aj.is_credit() {
        return state.moved(
            Stage::InBatch,
            credited(numbers, net),
            state.batch.with_added(net),
        );
    }
    state.moved(
        Stage::InBatch,
        debited(numbers, net),
        state.batch.with_taken(net),
    )
}

// Behind L9: one batch more.
fn behind_l9(state: Running) -> Running
    ensures { result ≡ behind_l9 state }
{
    state.moved(
        Stage::BetweenBatches,
        one_batch_more(counted(state.numbers)),
        state.batch,
    )
}

// Behind A9: the end.
fn behind_a9(state: Running) -> Running
    ensures { result ≡ behind_a9 state }
{
    state.moved(Stage::Ended, counted(state.numbers), state.batch)
}

// Behind what reading answered.
#[tactic(auto, unfolding(crate::specs::Behind::behind))]
pub(crate) fn behind(state: Running, reading: Reading) -> Running
    ensures { result ≡ behind state reading }
{
    match reading {
        Reading::Unknown | Reading::Faulty(_, _) => state,
        Reading::A0(a0) => behind_a0(state, a0),
        Reading::L0(_) => behind_l0(state),
        Reading::Cv(cv) => behind_sale(state, cv),
        Reading::Aj(aj) => behind_adjustment(state, aj),
        Reading::L9(_) => behind_l9(state),
        Reading::A9(_) => behind_a9(state),
    }
}
