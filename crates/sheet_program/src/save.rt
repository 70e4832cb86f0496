// A day sheet that is saved as a file.
ghost use Rattle.std.specs.Prelude.{◌≡◌};
ghost use Rattle.day_sheet.specs.Sheet.{bytes_of};
ghost use Rattle.out_file.specs.Saved.{TellsOfFiles};

use out_file::draft;
use program::mistake::Mistake;
use sheet_numbers::sheet::Sheet;

// Writes a sheet's bytes, and no other, into the file of this name. Nothing else here writes.
pub(crate) fn save(rt: &HostRuntime, sheet: Sheet, bytes: &[u8], out: &[u8]) -> Result<(), Mistake>
    requires { bytes.now ≡ bytes_of sheet }
    ensures { TellsOfFiles result }
{
    let draft = draft::begin(rt, out);
    match draft.write(bytes) {
        Ok(()) => draft.keep(rt, out).saved(),
        Err(error) => draft.noted(error).discard(rt, out).saved(),
    }
}
