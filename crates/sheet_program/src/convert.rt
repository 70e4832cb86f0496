// A day sheet in the other version, from file to file.
ghost use Rattle.std.specs.Prelude.{◌≡◌, Ok};
ghost use Rattle.day_sheet.specs.Sheet.{bytes_of};
ghost use Rattle.sheet_numbers.specs.Converted.{converted};
ghost use Rattle.sheet_program.specs.SheetRead.{SheetConverted};

use crate::read::SheetOutcome;
use crate::{load, save};
use day_sheet::{converter, layout, reader};
use out_file::place;
use program::mistake::Mistake;
use sheet_numbers::sheet::Sheet;

// Saves a sheet in the other version, and answers that one's numbers.
fn save_converted(rt: &HostRuntime, sheet: Sheet, bytes: &[u8], out: &[u8]) -> SheetOutcome
    requires { bytes.now ≡ bytes_of (converted sheet) }
    ensures { SheetConverted (Ok (Ok (converted sheet))) → SheetConverted result }
{
    let new = sheet.converted();
    save::save(rt, new, bytes, out)?;
    Ok(Ok(new))
}

// Converts a sheet's bytes. There is room for the longer sheet, so a sheet that was read is never refused here.
fn convert_bytes(rt: &HostRuntime, bytes: &[u8], out: &[u8]) -> SheetOutcome
    ensures { SheetConverted result }
{
    let read = reader::read(bytes);
    let Ok(sheet) = read else {
        return Ok(read);
    };
    let mut room = [0u8; layout::WIDTH_2];
    let _converted = converter::convert(bytes, &mut room);
    let width = layout::version_of(sheet.converted()).width();
    save_converted(rt, sheet, &room[..width], out)
}

// Converts the sheet of a name.
fn convert_file(rt: &HostRuntime, file: &[u8], out: &[u8]) -> SheetOutcome
    ensures { SheetConverted result }
{
    let mut room = [0u8; load::ROOM];
    let size = load::load(rt, file, &mut room)?;
    convert_bytes(rt, &room[..size], out)
}

// Writes the sheet of a name in the other version. Where there is none, what was at `out` is still there; `out` may be the sheet itself.
pub fn convert(rt: &HostRuntime, file: &[u8], out: &[u8]) -> SheetOutcome
    ensures { SheetConverted result }
{
    if !place::is_free(rt, out) {
        return Err(Mistake::OutNoFile);
    }
    convert_file(rt, file, out)
}
