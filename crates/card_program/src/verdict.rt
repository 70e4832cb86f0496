// What is printed of a card file, as document 01 prints it: put into a buffer, and written by one call.
ghost use Rattle.std.specs.Prelude.{◌≡◌};
ghost use Rattle.wording.specs.Put.{Puts};
ghost use Rattle.card_program.specs.Verdict.{
  led_line,
  totals_text,
  sets_text,
  accepted_text,
  adjusted_text,
  numbers_text,
  verdict_text,
  outcome_text,
  descriptor_of,
};

use crate::outcome::Outcome;
use card_run::answer::{Accepted, CardAnswer};
use files::writing;
use files::writing::Standard;
use program::mistake::{Failed, Mistake};
use program::outcome::Teller;
use program::{mistake, outcome};
use totals::amounts::Totals;
use totals::two_sets::TwoSets;
use wording::{line, put};

// What is printed of an accepted file. An enum and no closure: what may not change is `put_outcome`, which is asked for either.
#[derive(Clone, Copy)]
pub enum Lines {
    // Its records, its batches, and the totals of its sales.
    Sales,
    // Its credits and its debits.
    Adjustments,
}

// Room for every text.
const ROOM: usize = 384;

// Each function here puts its text behind the first `at` bytes, and answers how many bytes stand there then. First a line that a word leads.
fn put_led(word: &[u8], name: &[u8], number: u64, out: &mut [u8], at: usize) -> usize
    ensures { Puts (led_line word.now name.now number) out.old at result out.new }
{
    let behind_word = put::text(word, out, at);
    line::line(name, number, out, behind_word)
}

// The lines of totals, each led by a word.
pub fn put_totals(word: &[u8], totals: Totals, out: &mut [u8], at: usize) -> usize
    ensures { Puts (totals_text word.now totals) out.old at result out.new }
{
    let amounts = totals.amounts;
    let sales = put_led(word, b"SALES", totals.sales, out, at);
    let gross = put_led(word, b"GROSS", amounts.gross, out, sales);
    let discount = put_led(word, b"DISCOUNT", amounts.discount, out, gross);
    put_led(word, b"NET", amounts.net, out, discount)
}

// Of both sets.
pub fn put_sets(sets: TwoSets, out: &mut [u8], at: usize) -> usize
    ensures { Puts (sets_text sets) out.old at result out.new }
{
    let forecast = put_totals(b"FORECAST ", sets.forecast, out, at);
    put_totals(b"SETTLED ", sets.settled, out, forecast)
}

fn put_accepted(accepted: Accepted, out: &mut [u8], at: usize) -> usize
    ensures { Puts (accepted_text accepted) out.old at result out.new }
{
    let word = put::text(b"ACCEPTED\n", out, at);
    let records = line::line(b"RECORDS", accepted.records, out, word);
    let batches = line::line(b"BATCHES", accepted.batches, out, records);
    put_sets(accepted.totals, out, batches)
}

fn put_adjusted(accepted: Accepted, out: &mut [u8], at: usize) -> usize
    ensures { Puts (adjusted_text accepted) out.old at result out.new }
{
    let credits = accepted.credits;
    let debits = accepted.debits;
    let word = put::text(b"ACCEPTED\n", out, at);
    let credited = line::line(b"CREDITS", credits.count, out, word);
    let credit_net = line::line(b"CREDIT NET", credits.net, out, credited);
    let debited = line::line(b"DEBITS", debits.count, out, credit_net);
    line::line(b"DEBIT NET", debits.net, out, debited)
}

// The lines that are asked for.
fn put_numbers(lines: Lines, accepted: Accepted, out: &mut [u8], at: usize) -> usize
    ensures { Puts (numbers_text lines accepted) out.old at result out.new }
{
    match lines {
        Lines::Sales => put_accepted(accepted, out, at),
        Lines::Adjustments => put_adjusted(accepted, out, at),
    }
}

pub(crate) fn put_verdict(lines: Lines, answer: CardAnswer, out: &mut [u8], at: usize) -> usize
    ensures { Puts (verdict_text lines answer) out.old at result out.new }
{
    match answer {
        None => put::text(b"", out, at),
        Some(Ok(accepted)) => put_numbers(lines, accepted, out, at),
        Some(Err(refusal)) => line::refused(refusal, out, at),
    }
}

// Tells a card file's verdict.
impl Teller for Lines {
    type Answer = CardAnswer;

    ghost text_of = { λ lines answer. verdict_text lines answer };

    #[tactic(auto, using(crate::proofs::Texts::verdict_short))]
    fn put(&self, answer: CardAnswer, out: &mut [u8], at: usize) -> usize {
        put_verdict(*self, answer, out, at)
    }
}

// The verdict, or the mistake's sentence. (This and the one below are lines over what the programs share: what may not change is that each is asked by its name.)
pub fn put_outcome(lines: Lines, outcome: Outcome, out: &mut [u8], at: usize) -> usize
    ensures { Puts (outcome_text lines outcome) out.old at result out.new }
{
    outcome::put(&lines, outcome, out, at)
}

// Where an outcome's text goes: a verdict to standard output, a mistake to standard error.
pub fn descriptor(outcome: Outcome) -> Standard
    ensures { result ≡ descriptor_of outcome }
{
    outcome::standard(&outcome)
}

// Writes an outcome's text, and no other. (Here and not in `program::outcome`, so that `print` is held to the outcome that it is given.)
fn write(rt: &HostRuntime, lines: Lines, outcome: Outcome, text: &[u8])
    requires { text.now ≡ outcome_text lines outcome }
{
    if let Err(error) = writing::write_to(rt, descriptor(outcome), text) {
        mistake::tell(rt, Mistake::System(Failed::Print, error));
    }
}

// Prints the verdict, or tells the mistake, by one call.
pub fn print(rt: &HostRuntime, lines: Lines, outcome: Outcome) {
    let mut room = [0u8; ROOM];
    let size = put_outcome(lines, outcome, &mut room, 0);
    write(rt, lines, outcome, &room[..size]);
}
