// The lines of which a verdict is made.
ghost use Rattle.wording.specs.Put.{Puts};
ghost use Rattle.wording.specs.Line.{word_of, line_of, refused_line};

use crate::put;
use refusal::Refusal;

// A word, a blank and a number.
pub fn word(name: &[u8], number: u64, out: &mut [u8], at: usize) -> usize
    ensures { Puts (word_of name.now number) out.old at result out.new }
{
    let behind_name = put::text(name, out, at);
    let behind_blank = put::text(b" ", out, behind_name);
    put::number(number, out, behind_blank)
}

// A line of a word and a number.
pub fn line(name: &[u8], number: u64, out: &mut [u8], at: usize) -> usize
    ensures { Puts (line_of name.now number) out.old at result out.new }
{
    let end = word(name, number, out, at);
    put::text(b"\n", out, end)
}

// `REFUSED 9 RECORD 3 COLUMN 194`
pub fn refused(refusal: Refusal, out: &mut [u8], at: usize) -> usize
    ensures { Puts (refused_line refusal) out.old at result out.new }
{
    let cause = refusal.cause;
    let behind_number = word(b"REFUSED", cause.number(), out, at);
    let behind_record = word(b" RECORD", refusal.record, out, behind_number);
    line(b" COLUMN", refusal.column, out, behind_record)
}
