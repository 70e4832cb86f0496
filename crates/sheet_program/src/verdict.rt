// What is printed of a day sheet, in document 01's words: put into a buffer, and written by one call.
ghost use Rattle.std.specs.Prelude.{◌≤◌, ◌≡◌};
ghost use Rattle.wording.specs.Put.{Puts};
ghost use Rattle.sheet_program.specs.Verdict.{
  digits_line,
  heading_text,
  version1_text,
  version2_text,
  numbers_text,
  read_text,
  outcome_text,
  descriptor_of,
};

use crate::read::SheetOutcome;
use card_program::verdict;
use day_sheet::number::Form;
use files::writing;
use files::writing::Standard;
use program::mistake::{Failed, Mistake};
use program::outcome::Teller;
use program::{mistake, outcome};
use refusal::Answer;
use sheet_numbers::sheet::{Heading, Sheet};
use totals::amounts::Totals;
use totals::two_sets::TwoSets;
use wording::{line, put};

// The digits of a date, AAAAMMDD, and of a movement.
const DATE_DIGITS: usize = 8;

const MOVEMENT_DIGITS: usize = 6;

// Room for every text.
const ROOM: usize = 448;

// Each function here puts its text behind the first `at` bytes, and answers how many bytes stand there then. First a word and so many digits of a
// number, of which a date has the most.
fn put_digits(name: &[u8], number: u64, width: usize, out: &mut [u8], at: usize) -> usize
    requires { width ≤ 8 }
    ensures { Puts (digits_line name.now width number) out.old at result out.new }
{
    let mut digits = [0u8; DATE_DIGITS];
    Form::Digits.put(number, &mut digits[..width]);
    let word = put::text(name, out, at);
    let end = put::text(&digits[..width], out, word);
    put::text(b"\n", out, end)
}

// What both versions begin with.
fn put_heading(heading: Heading, out: &mut [u8], at: usize) -> usize
    ensures { Puts (heading_text heading) out.old at result out.new }
{
    let edition = line::line(b"EDITION", heading.edition, out, at);
    let date = put_digits(b"DATE ", heading.date, DATE_DIGITS, out, edition);
    let movement = put_digits(b"MOVEMENT ", heading.movement, MOVEMENT_DIGITS, out, date);
    line::line(b"BATCHES", heading.batches, out, movement)
}

fn put_version1(heading: Heading, totals: Totals, out: &mut [u8], at: usize) -> usize
    ensures { Puts (version1_text heading totals) out.old at result out.new }
{
    let end = put_heading(heading, out, at);
    verdict::put_totals(b"", totals, out, end)
}

fn put_version2(heading: Heading, split: u64, sets: TwoSets, out: &mut [u8], at: usize) -> usize
    ensures { Puts (version2_text heading split sets) out.old at result out.new }
{
    let version = line::line(b"VERSION", 2, out, at);
    let end = put_heading(heading, out, version);
    let known = line::line(b"SPLIT", split, out, end);
    verdict::put_sets(sets, out, known)
}

fn put_numbers(sheet: Sheet, out: &mut [u8], at: usize) -> usize
    ensures { Puts (numbers_text sheet) out.old at result out.new }
{
    match sheet {
        Sheet::Version1 { heading, totals } => put_version1(heading, totals, out, at),
        Sheet::Version2 {
            heading,
            split,
            sets,
        } => put_version2(heading, split, sets, out, at),
    }
}

fn put_read(read: Answer<Sheet>, out: &mut [u8], at: usize) -> usize
    ensures { Puts (read_text read) out.old at result out.new }
{
    match read {
        Ok(sheet) => put_numbers(sheet, out, at),
        Err(refusal) => line::refused(refusal, out, at),
    }
}

// Tells what a day sheet says.
struct DaySheet;

impl Teller for DaySheet {
    type Answer = Answer<Sheet>;

    ghost text_of = { λ _ read. read_text read };

    #[tactic(auto, using(crate::proofs::Texts::read_short))]
    fn put(&self, read: Answer<Sheet>, out: &mut [u8], at: usize) -> usize {
        put_read(read, out, at)
    }
}

// The numbers of a day sheet, its refusal, or the mistake's sentence. (This and the one below are lines over what the programs share: what may not change is that each is asked by its name.)
pub fn put_outcome(outcome: SheetOutcome, out: &mut [u8], at: usize) -> usize
    ensures { Puts (outcome_text outcome) out.old at result out.new }
{
    outcome::put(&DaySheet, outcome, out, at)
}

// Where an outcome's text goes: numbers and refusals to standard output, a mistake to standard error.
pub fn descriptor(outcome: SheetOutcome) -> Standard
    ensures { result ≡ descriptor_of outcome }
{
    outcome::standard(&outcome)
}

// Writes an outcome's text, and no other. (Here and not in `program::outcome`, so that `print` is held to the outcome that it is given.)
fn write(rt: &HostRuntime, outcome: SheetOutcome, text: &[u8])
    requires { text.now ≡ outcome_text outcome }
{
    if let Err(error) = writing::write_to(rt, descriptor(outcome), text) {
        mistake::tell(rt, Mistake::System(Failed::Print, error));
    }
}

// Prints the numbers of a day sheet or its refusal, or tells the mistake, by one call.
pub fn print(rt: &HostRuntime, outcome: SheetOutcome) {
    let mut room = [0u8; ROOM];
    let size = put_outcome(outcome, &mut room, 0);
    write(rt, outcome, &room[..size]);
}
