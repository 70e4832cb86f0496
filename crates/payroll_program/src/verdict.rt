// What is printed of a payroll file, as document 01 prints it: put into a buffer, and written by one call.
ghost use Rattle.std.specs.Prelude.{◌≡◌};
ghost use Rattle.wording.specs.Put.{Puts};
ghost use Rattle.payroll_program.specs.Verdict.{accepted_text, verdict_text, outcome_text, descriptor_of};

use crate::outcome::PayrollOutcome;
use files::writing;
use files::writing::Standard;
use payroll_file::answer::{Accepted, PayrollAnswer};
use program::mistake::{Failed, Mistake};
use program::outcome::Teller;
use program::{mistake, outcome};
use wording::{line, put};

// Room for every text.
const ROOM: usize = 256;

// Each function here puts its text behind the first `at` bytes, and answers how many bytes stand there then. First the lines of an accepted file.
fn put_accepted(accepted: Accepted, out: &mut [u8], at: usize) -> usize
    ensures { Puts (accepted_text accepted) out.old at result out.new }
{
    let word = put::text(b"ACCEPTED\n", out, at);
    let records = line::line(b"RECORDS", accepted.records, out, word);
    let batches = line::line(b"BATCHES", accepted.batches, out, records);
    let payments = line::line(b"PAYMENTS", accepted.payments, out, batches);
    line::line(b"AMOUNT", accepted.amount, out, payments)
}

pub(crate) fn put_verdict(answer: PayrollAnswer, out: &mut [u8], at: usize) -> usize
    ensures { Puts (verdict_text answer) out.old at result out.new }
{
    match answer {
        Ok(accepted) => put_accepted(accepted, out, at),
        Err(refusal) => line::refused(refusal, out, at),
    }
}

// Tells a payroll file's verdict.
struct Verdict;

impl Teller for Verdict {
    type Answer = PayrollAnswer;

    ghost text_of = { λ _ answer. verdict_text answer };

    #[tactic(auto, using(crate::proofs::Texts::verdict_short))]
    fn put(&self, answer: PayrollAnswer, out: &mut [u8], at: usize) -> usize {
        put_verdict(answer, out, at)
    }
}

// The verdict, or the mistake's sentence. (This and the one below are lines over what the programs share: what may not change is that each is asked by its name.)
pub fn put_outcome(outcome: PayrollOutcome, out: &mut [u8], at: usize) -> usize
    ensures { Puts (outcome_text outcome) out.old at result out.new }
{
    outcome::put(&Verdict, outcome, out, at)
}

// Where an outcome's text goes: a verdict to standard output, a mistake to standard error.
pub fn descriptor(outcome: PayrollOutcome) -> Standard
    ensures { result ≡ descriptor_of outcome }
{
    outcome::standard(&outcome)
}

// Writes an outcome's text, and no other. (Here and not in `program::outcome`, so that `print` is held to the outcome that it is given.)
fn write(rt: &HostRuntime, outcome: PayrollOutcome, text: &[u8])
    requires { text.now ≡ outcome_text outcome }
{
    if let Err(error) = writing::write_to(rt, descriptor(outcome), text) {
        mistake::tell(rt, Mistake::System(Failed::Print, error));
    }
}

// Prints the verdict, or tells the mistake, by one call.
pub fn print(rt: &HostRuntime, outcome: PayrollOutcome) {
    let mut room = [0u8; ROOM];
    let size = put_outcome(outcome, &mut room, 0);
    write(rt, outcome, &room[..size]);
}
