// The row of the field question.
ghost use Rattle.std.specs.Prelude.{◌≡◌};
ghost use Rattle.answer_rows.specs.Field.{field_numbers};

use crate::refused::refused_row;

pub const FIELD_NUMBERS: usize = 5;

// The row of a record's field with this number: its refusal, the place from 0 at which it begins, and its length; zeros where it is refused.
#[tactic(auto, unfolding(sale_field::specs::Field::field_row, sale_field::specs::Field::place_as, sale_field::specs::Field::part_as))]
pub fn field_row(bytes: &[u8], number: u64) -> [u64; FIELD_NUMBERS]
    ensures { result ≡ field_numbers bytes.now number }
{
    match sale_field::field_answer(bytes, number) {
        Ok(()) => {
            let place = sale_field::place(bytes, number);
            let part = sale_field::field(bytes, number);
            [0, 0, 0, place as u64, part.len() as u64]
        }
        Err(refusal) => refused_row(refusal),
    }
}
