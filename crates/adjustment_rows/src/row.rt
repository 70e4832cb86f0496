// The row of an adjustment, field by field. Each function here puts its text behind the first `at` bytes, and answers how many bytes stand there then.
ghost use Rattle.std.specs.Prelude.{[], ◌∷◌};
ghost use Rattle.wording.specs.Put.{Puts};
ghost use Rattle.wording.specs.Number.{decimal_of};
ghost use Rattle.card_content.specs.declared.content.Content.TheVariants.{Digits, Text, Day, DayOrZeros};
ghost use Rattle.card_content.specs.Field.{field, part_of};
ghost use Rattle.adjustment_rows.specs.Fields.{quoted, amount_text, separated, with_commas};
ghost use Rattle.adjustment_rows.specs.Row.{day_text, type_text, header, row_of};

use crate::{amount, quoting};
use card_adjustment::aj::Aj;
use totals::amounts::Amounts;
use wording::put;

// The line that names the fields.
pub fn put_header(out: &mut [u8], at: usize) -> usize
    ensures { Puts header out.old at result out.new }
{
    put::text(
        b"record,store,original_date,adjustment_date,type,reason,description,gross,discount,net\n",
        out,
        at,
    )
}

// A field as it is, and a comma.
fn put_plain(field: &[u8], out: &mut [u8], at: usize) -> usize
    ensures { Puts (with_commas (field.now ∷ [])) out.old at result out.new }
{
    let behind_field = put::text(field, out, at);
    put::text(b",", out, behind_field)
}

// A text, and a comma.
fn put_text(text: &[u8], out: &mut [u8], at: usize) -> usize
    ensures { Puts (with_commas (quoted text.now ∷ [])) out.old at result out.new }
{
    let behind_text = quoting::put_quoted(text, out, at);
    put::text(b",", out, behind_text)
}

// An amount, and a comma.
fn put_amount_field(amount: u64, out: &mut [u8], at: usize) -> usize
    ensures { Puts (with_commas (amount_text amount ∷ [])) out.old at result out.new }
{
    let behind_amount = amount::put_amount(amount, out, at);
    put::text(b",", out, behind_amount)
}

// A day that may be zeros, and a comma.
fn put_day(day: &[u8], out: &mut [u8], at: usize) -> usize
    ensures { Puts (with_commas (day_text day.now ∷ [])) out.old at result out.new }
{
    if text::literal::equals(day, b"00000000") {
        return put_plain(b"", out, at);
    }
    put_plain(day, out, at)
}

// The type of an adjustment, and a comma.
fn put_type(credit: bool, out: &mut [u8], at: usize) -> usize
    ensures { Puts (with_commas (type_text credit ∷ [])) out.old at result out.new }
{
    if credit {
        return put_plain(b"CREDIT", out, at);
    }
    put_plain(b"DEBIT", out, at)
}

// The fields up to the store.
fn put_store(number: u64, bytes: &[u8], out: &mut [u8], at: usize) -> usize
    ensures { Puts (with_commas (decimal_of number ∷ quoted (part_of (field 3 17 Text) bytes.now) ∷ [])) out.old at result out.new }
{
    let behind_number = put::number(number, out, at);
    let behind_comma = put::text(b",", out, behind_number);
    put_text(Aj::STORE.part(bytes), out, behind_comma)
}

// Both dates.
fn put_days(bytes: &[u8], out: &mut [u8], at: usize) -> usize
    ensures { Puts (with_commas (day_text (part_of (field 30 37 DayOrZeros) bytes.now) ∷ part_of (field 52 59 Day) bytes.now ∷ [])) out.old at result out.new }
{
    let behind_original = put_day(Aj::ORIGINAL_DATE.part(bytes), out, at);
    put_plain(Aj::DATE.part(bytes), out, behind_original)
}

// The reason's code and description.
fn put_reason(bytes: &[u8], out: &mut [u8], at: usize) -> usize
    ensures { Puts (with_commas (part_of (field 77 79 Digits) bytes.now ∷ quoted (part_of (field 80 109 Text) bytes.now) ∷ [])) out.old at result out.new }
{
    let behind_code = put_plain(Aj::REASON.part(bytes), out, at);
    put_text(Aj::DESCRIPTION.part(bytes), out, behind_code)
}

// The amounts, which end the row.
fn put_amounts(amounts: Amounts, out: &mut [u8], at: usize) -> usize
    ensures { Puts (separated (amount_text amounts.gross ∷ amount_text amounts.discount ∷ amount_text amounts.net ∷ [])) out.old at result out.new }
{
    let behind_gross = put_amount_field(amounts.gross, out, at);
    let behind_discount = put_amount_field(amounts.discount, out, behind_gross);
    let behind_net = amount::put_amount(amounts.net, out, behind_discount);
    put::text(b"\n", out, behind_net)
}

// The row of a record of kind AJ, which is the file's record of this number.
pub(crate) fn put_row(number: u64, bytes: &[u8], out: &mut [u8], at: usize) -> usize
    ensures { Puts (row_of number bytes.now) out.old at result out.new }
{
    let adjustment = Aj::read(bytes);
    let behind_store = put_store(number, bytes, out, at);
    let behind_days = put_days(bytes, out, behind_store);
    let behind_type = put_type(adjustment.is_credit(), out, behind_days);
    let behind_reason = put_reason(bytes, out, behind_type);
    put_amounts(adjustment.amounts, out, behind_reason)
}
