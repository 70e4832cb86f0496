// Whole card files.
ghost use Rattle.std.specs.Prelude.{◌≡◌};
ghost use Rattle.card_file.specs.CardFile.{check_of};
ghost use Rattle.card_mask.specs.Mask.{Masks};
ghost use Rattle.card_sheet.specs.SheetOf.{SheetOf};
ghost use Rattle.answer_rows.specs.Card.{card_numbers};
ghost use Rattle.c_files.specs.Told.{Told};

use answer_rows::card::CARD_NUMBERS;

// The row of a card file under an edition.
#[unsafe(no_mangle)]
pub extern "C" fn lossivurn_card_check(edition: u64, file: &[u8], row: &mut [u64; CARD_NUMBERS])
    ensures { row.new ≡ card_numbers (check_of edition file.now) }
{
    c_files::card::lossivurn_card_check(edition, file, row)
}

// The same; the masked copy of an accepted file is written into the front of the output.
#[unsafe(no_mangle)]
pub extern "C" fn lossivurn_card_mask(
    edition: u64,
    file: &[u8],
    out: &mut [u8],
    row: &mut [u64; CARD_NUMBERS],
)
    ensures { Told card_numbers (Masks edition file.now out.old) row.new out.new }
{
    c_files::card::lossivurn_card_mask(edition, file, out, row)
}

// The same; the day sheet of an accepted file is written into the first 81 bytes of the output.
#[unsafe(no_mangle)]
pub extern "C" fn lossivurn_card_sheet(
    edition: u64,
    file: &[u8],
    out: &mut [u8],
    row: &mut [u64; CARD_NUMBERS],
)
    ensures { Told card_numbers (SheetOf edition file.now out.old) row.new out.new }
{
    c_files::card::lossivurn_card_sheet(edition, file, out, row)
}
