// One field of a sale.
ghost use Rattle.std.specs.Prelude.{◌≡◌};
ghost use Rattle.answer_rows.specs.Field.{field_numbers};

use answer_rows::field::FIELD_NUMBERS;

// The row of the field with this number of a lone CV record: its refusal, and where in the record it stands.
#[unsafe(no_mangle)]
pub extern "C" fn lossivurn_sale_field(bytes: &[u8], number: u64, row: &mut [u64; FIELD_NUMBERS])
    ensures { row.new ≡ field_numbers bytes.now number }
{
    c_files::sale::lossivurn_sale_field(bytes, number, row)
}
