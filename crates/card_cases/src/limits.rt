// What no file of cases can say: editions of more than a byte, and states far into a file. Prints an answer a line.
ghost use Rattle.std.specs.Prelude.{◌≡◌};
ghost use Rattle.card_cases.specs.Behind.{behind_of};

use card_run::adjusted::Adjusted;
use card_run::answer::{Accepted, CardAnswer};
use card_run::batch::OpenBatch;
use card_run::running::Running;
use card_run::stage::Stage;
use cases::{answer, file, print};
use totals::two_sets::TwoSets;

// `: ` and an answer, behind what it is of.
fn print_answer(of: CardAnswer) {
    print::byte(b':');
    print::byte(b' ');
    answer::print_card_answer(of);
    print::byte(b'\n');
}

// An answer and what it is of.
fn print_line(name: &[u8], of: CardAnswer) {
    print::text(name);
    print_answer(of);
}

// A file under an edition that is told by its digits.
fn print_edition(edition: u64, file: &[u8]) {
    print::text(b"edition ");
    print::number(edition);
    print_answer(card_file::check(edition, file));
}

// One file under editions small and large.
fn print_editions(file: &[u8]) {
    print_edition(0, file);
    print_edition(1, file);
    print_edition(2, file);
    print_edition(3, file);
    print_edition(258, file);
    print_line(b"edition 2^32 + 2", card_file::check(4_294_967_298, file));
    print_line(
        b"edition 2^64 - 1",
        card_file::check(18_446_744_073_709_551_615, file),
    );
}

// A state between batches that has taken so many records, without a transaction.
fn behind(records: u64) -> Running
    ensures { result ≡ behind_of records }
{
    let numbers = Accepted {
        date: 20231115,
        movement: 42,
        records,
        batches: 0,
        totals: TwoSets::none(),
        credits: Adjusted::none(),
        debits: Adjusted::none(),
    };
    Running::open(2).moved(Stage::BetweenBatches, numbers, OpenBatch::none())
}

// The last record that NSEQ can number, and the millionth, which stays refused.
fn print_last_records() {
    let last = card_file::feed(behind(999_998), b"L020231115RE999999");
    print_line(b"record 999999", last.answer());
    print_millionth(last);
}

fn print_millionth(last: Running) {
    let millionth = card_file::feed(last, b"L900000000000000000000000000");
    print_line(b"record 1000000", millionth.answer());
    print_line(b"and for ever", millionth.close().answer());
}

// A record behind as many as a state can count.
fn print_beyond() {
    let beyond = card_file::feed(behind(18_446_744_073_709_551_615), b"L020231115RE000000");
    print_line(b"no number above 2^64 - 1", beyond.answer());
}

pub fn print_all(rt: &HostRuntime) {
    let mut buffer = file::room();
    print::text(b"limits\n");
    let size = file::load(rt, b"day.card", &mut buffer);
    print_editions(&buffer[..size]);
    print_last_records();
    print_beyond();
}
