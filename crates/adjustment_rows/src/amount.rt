// An amount as a field of CSV.
ghost use Rattle.wording.specs.Put.{Puts};
ghost use Rattle.adjustment_rows.specs.Fields.{amount_text};

use wording::put;

// Puts an amount, which is in centavos, behind the first `at` bytes, with two decimals.
pub(crate) fn put_amount(amount: u64, out: &mut [u8], at: usize) -> usize
    ensures { Puts (amount_text amount) out.old at result out.new }
{
    let tens = (amount / 10 % 10) as u8;
    let ones = (amount % 10) as u8;
    let decimals = [b'.', b'0' + tens, b'0' + ones];
    let behind_whole = put::number(amount / 100, out, at);
    put::text(&decimals, out, behind_whole)
}
