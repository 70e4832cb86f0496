// A text, or a number, put into a buffer behind what stands there already. Buffer and place are two parameters, and no writer: `Puts`, which `answers` holds
// of every text of a program, says what the buffer was, where, and what it is.
ghost use Rattle.std.specs.Prelude.{◌≡◌};
ghost use Rattle.wording.specs.Put.{Puts};
ghost use Rattle.wording.specs.Number.{decimal_of};
ghost use Rattle.wording.specs.Shown.{shown_byte, shown_as};

// Puts a text behind the first `at` bytes, as far as there is room, and answers how many bytes stand there then.
pub fn text(text: &[u8], out: &mut [u8], at: usize) -> usize
    ensures { Puts text.now out.old at result out.new }
{
    let start = at.min(out.len());
    let size = text.len().min(out.len() - start);
    let end = start + size;
    out[start..end].copy_from_slice(&text[..size]);
    end
}

// A byte, or the mark where it is a control byte.
fn shown_byte(byte: u8, mark: u8) -> u8
    ensures { result ≡ shown_byte mark byte }
{
    if byte.is_ascii_control() { mark } else { byte }
}

// Puts the mark over each control byte of some bytes.
fn mark_over(bytes: &mut [u8], mark: u8)
    ensures { bytes.new ≡ shown_as mark bytes.old }
{
    for byte in bytes.iter_mut() {
        *byte = shown_byte(*byte, mark);
    }
}

// Puts a text as `text` does, with the mark for each control byte, so that it stays on one line. (It is put whole, and marked where it stands: put by
// the byte, a long name costs four times the instructions.)
pub fn shown(text: &[u8], mark: u8, out: &mut [u8], at: usize) -> usize
    ensures { Puts (shown_as mark text.now) out.old at result out.new }
{
    let start = at.min(out.len());
    let end = self::text(text, out, at);
    mark_over(&mut out[start..end], mark);
    end
}

// A number, with no zero in front.
pub fn number(number: u64, out: &mut [u8], at: usize) -> usize
    ensures { Puts (decimal_of number) out.old at result out.new }
{
    let mut digits = [0u8; 20];
    let count = io::decimal(number, &mut digits);
    text(&digits[..count], out, at)
}
