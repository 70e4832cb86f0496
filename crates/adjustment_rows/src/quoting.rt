// A text of a record as a field of CSV. Each function that puts does so behind the first `at` bytes, and answers how many bytes stand there then.
ghost use Rattle.std.specs.Prelude.{◌≡◌, [], ◌∷◌, ◌++◌};
ghost use Rattle.wording.specs.Put.{Puts};
ghost use Rattle.adjustment_rows.specs.Fields.{doubled, is_marked, mark_of, quoted};

use wording::put;

// Whether a text needs an apostrophe in front, so that no spreadsheet computes it.
fn is_marked(text: &[u8]) -> bool
    ensures { result ≡ is_marked text.now }
{
    text::literal::is_one_of(text::part::part_of(1, 1, text), b"=+-@'")
}

// The quote that opens a text, and the mark.
fn put_opening(text: &[u8], out: &mut [u8], at: usize) -> usize
    ensures { Puts (34 ∷ mark_of text.now) out.old at result out.new }
{
    if is_marked(text) {
        return put::text(b"\"'", out, at);
    }
    put::text(b"\"", out, at)
}

// A byte of a text, twice where it is a quote.
fn put_byte(byte: u8, out: &mut [u8], at: usize) -> usize
    ensures { Puts (doubled (byte ∷ [])) out.old at result out.new }
{
    if byte == b'"' {
        return put::text(b"\"\"", out, at);
    }
    put::text(&[byte], out, at)
}

// A text up to the quote that closes it.
fn put_unclosed(text: &[u8], out: &mut [u8], at: usize) -> usize
    ensures { Puts (34 ∷ mark_of text.now ++ doubled text.now) out.old at result out.new }
{
    let mut end = put_opening(text, out, at);
    for byte in text {
        end = put_byte(*byte, out, end);
    }
    end
}

// A text in quotes.
pub(crate) fn put_quoted(text: &[u8], out: &mut [u8], at: usize) -> usize
    ensures { Puts (quoted text.now) out.old at result out.new }
{
    let behind_text = put_unclosed(text, out, at);
    put::text(b"\"", out, behind_text)
}
