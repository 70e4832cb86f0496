// Numbers in their places, one behind the other by the table, as many as either version has.
ghost use Rattle.std.specs.Prelude.{◌≡◌, length, drop};
ghost use Rattle.day_sheet.specs.Layout.{from_places, digits_right};
ghost use Rattle.day_sheet.specs.FirstPlaces.{first_places, RoomFor, filled_with};

use crate::layout;
use crate::number::Form;

// Fills the mark, and behind it the numbers' places, one behind the other.
pub(crate) fn fill(numbers: &[u64], out: &mut [u8])
    requires { RoomFor (length numbers.now) out.old }
    ensures { out.new ≡ filled_with numbers.now out.old }
{
    Form::Bytes.put_at(layout::MARK, 0, layout::MARK_WIDTH, out);
    let mut at = layout::MARK_WIDTH;
    for (number, value) in numbers.iter().enumerate() {
        let place = layout::place_of(number);
        let end = at + place.width;
        place.form.put_at(*value, at, end, out);
        at = end;
    }
}

// Whether the first places hold what their forms have.
pub(crate) fn holds_digits(bytes: &[u8], places: usize) -> bool
    requires { RoomFor places bytes.now }
    ensures { result ≡ digits_right (first_places places) (drop 3 bytes.now) }
{
    let mut at = layout::MARK_WIDTH;
    for number in 0..places {
        let place = layout::place_of(number);
        let end = at + place.width;
        if !place.form.holds(&bytes[at..end]) {
            return false;
        }
        at = end;
    }
    true
}

// Reads the numbers of the first places, one behind the other.
pub(crate) fn read_numbers(bytes: &[u8], numbers: &mut [u64])
    requires { RoomFor (length numbers.old) bytes.now }
    ensures { numbers.new ≡ from_places (first_places (length numbers.old)) (drop 3 bytes.now) }
{
    let mut at = layout::MARK_WIDTH;
    for (number, value) in numbers.iter_mut().enumerate() {
        let place = layout::place_of(number);
        let end = at + place.width;
        *value = place.form.value(&bytes[at..end]);
        at = end;
    }
}
