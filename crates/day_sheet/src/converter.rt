// From one version of a day sheet to the other.
ghost use Rattle.day_sheet.specs.Conversion.{Converts};

use crate::{reader, writer};
use refusal::Answer;

// Writes a sheet in the other version into the first bytes of the output: the refusals of reading, 2, or done. Refused, it changes nothing.
#[tactic(auto, unfolding(crate::specs::Conversion::convert_answer, crate::specs::Conversion::convert_result))]
pub fn convert(bytes: &[u8], out: &mut [u8]) -> Answer<()>
    ensures { Converts bytes.now out.old result out.new }
{
    let sheet = reader::read(bytes)?;
    writer::put(sheet.converted(), out)
}
