// Writing a day sheet.
ghost use Rattle.day_sheet.specs.Writing.{PutInto, Writes};

use crate::{layout, places, row};
use refusal::{Answer, Cause, Refusal};
use sheet_numbers::sheet::Sheet;

// Puts a sheet, whatever its numbers are, into the first bytes of the output: 2, or done.
#[tactic(auto, using(crate::proofs::Writings::row_places, crate::proofs::Writings::row_length, crate::proofs::Writings::row_filled), unfolding(crate::specs::Writing::put_answer, crate::specs::Writing::put_result))]
pub(crate) fn put(sheet: Sheet, out: &mut [u8]) -> Answer<()>
    ensures { PutInto sheet out.old result out.new }
{
    let version = layout::version_of(sheet);
    let width = version.width();
    if out.len() < width {
        return Err(Refusal::nowhere(Cause::OutputTooShort));
    }
    let row = row::row(sheet);
    places::fill(&row[..version.places()], out);
    Ok(())
}

// Writes a new sheet into the first bytes of the output, as many as its version has: 22 for a retired edition, 17, 2, or done. Refused, it changes nothing.
#[tactic(auto, unfolding(crate::specs::Writing::write_answer, crate::specs::Writing::write_result))]
pub fn write(sheet: Sheet, out: &mut [u8]) -> Answer<()>
    ensures { Writes sheet out.old result out.new }
{
    if edition::known::is_retired(sheet.edition()) {
        return Err(Refusal::nowhere(Cause::EditionRetired));
    }
    if !sheet.is_allowed() {
        return Err(Refusal::nowhere(Cause::SheetNumbersNotAllowed));
    }
    put(sheet, out)
}
