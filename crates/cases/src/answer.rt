// Answers as the lines of the cases say them.
use crate::print;
use card_run::adjusted::Adjusted;
use card_run::answer::{Accepted, CardAnswer};
use refusal::{Answer, Progress, Refusal};
use totals::amounts::Totals;
use totals::two_sets::TwoSets;

// The digits of a date, AAAAMMDD.
const DATE_DIGITS: usize = 8;

// The digits of a movement.
const MOVEMENT_DIGITS: usize = 6;

// A blank, and a number.
pub fn next_number(n: u64) {
    print::byte(b' ');
    print::number(n);
}

// A blank and a date, a blank and a movement, each with all its digits.
pub fn next_day(date: u64, movement: u64) {
    print::byte(b' ');
    print::padded(date, DATE_DIGITS);
    print::byte(b' ');
    print::padded(movement, MOVEMENT_DIGITS);
}

// `R number record column`
pub fn print_refusal(refusal: Refusal) {
    let cause = refusal.cause;
    print::byte(b'R');
    next_number(cause.number());
    next_number(refusal.record);
    next_number(refusal.column);
}

// An answer: what is printed of what was accepted, or its refusal.
pub fn print_answer<A: Copy, F: FnOnce(A)>(answer: Answer<A>, print_accepted: F)
    requires { F.IsAlwaysCallable print_accepted }
{
    match answer {
        Ok(accepted) => print_accepted(accepted),
        Err(refusal) => print_refusal(refusal),
    }
}

// The same of an answer so far; `-` where there is none yet.
pub fn print_progress<A: Copy, F: FnOnce(A)>(progress: Progress<A>, print_accepted: F)
    requires { F.IsAlwaysCallable print_accepted }
{
    match progress {
        Some(answer) => print_answer(answer, print_accepted),
        None => print::byte(b'-'),
    }
}

// `A date movement records batches fsales fgross fdiscount fnet ssales sgross sdiscount snet credits creditnet debits debitnet`: forecast, settled, adjustments.
pub fn print_accepted(accepted: Accepted) {
    print::byte(b'A');
    next_day(accepted.date, accepted.movement);
    next_number(accepted.records);
    next_number(accepted.batches);
    next_sets(accepted.totals);
    next_adjusted(accepted.credits);
    next_adjusted(accepted.debits);
}

// A blank before each: the sales, and what they come to.
pub fn next_totals(totals: Totals) {
    let amounts = totals.amounts;
    next_number(totals.sales);
    next_number(amounts.gross);
    next_number(amounts.discount);
    next_number(amounts.net);
}

// Those of both sets.
fn next_sets(sets: TwoSets) {
    next_totals(sets.forecast);
    next_totals(sets.settled);
}

// A blank before each: the adjustments of one type, and their net.
fn next_adjusted(adjusted: Adjusted) {
    next_number(adjusted.count);
    next_number(adjusted.net);
}

// The answer of a card file.
pub fn print_card_answer(answer: CardAnswer) {
    print_progress(answer, print_accepted);
}

// ` n cuts alike`, and the line's end.
pub fn next_cuts(n: u64) {
    next_number(n);
    print::text(b" cuts alike\n");
}
