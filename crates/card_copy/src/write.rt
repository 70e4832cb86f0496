// What is written of a card file: its lines, masked, or a header line and the rows of its adjustments.
ghost use Rattle.std.specs.Prelude.{◌≤◌, ◌≡◌, length};
ghost use Rattle.lines.specs.Lines.{cut};
ghost use Rattle.card_run.specs.Running.{next_number};
ghost use Rattle.adjustment_rows.specs.Row.{header};
ghost use Rattle.adjustment_rows.specs.Rows.{rows_of};
ghost use Rattle.card_copy.specs.Copying.{InHand, MayBeWritten, Held, counts, finishes};

use crate::hand::Hand;
use crate::output::Output;
use adjustment_rows::{row, rows};
use card_stream::Stream;
use out_file::draft::Draft;

// Writes finished lines of what is in hand, which are masked. Nothing else here writes lines.
fn write_finished(before: Stream, draft: &Draft, lines: &[u8]) -> Result<(), u64>
    requires { MayBeWritten before lines.now }
{
    draft.write(lines)
}

// Room for the rows of a buffer's lines, which take at most twice as many bytes as these. The `ensures` gives only the length, which lending it as a slice
// needs.
fn room() -> [u8; 131072]
    ensures { 131072 ≡ length result }
{
    [0; 131072]
}

// Writes the rows of the lines in these bytes, which are in hand: the first of them is the record that comes next in `before`. Nothing else here writes rows.
fn write_adjustments(before: Stream, bytes: &[u8], draft: &Draft, rows: &[u8]) -> Result<(), u64>
    requires { InHand before bytes.now × (rows.now ≡ rows_of (next_number before.state) (cut bytes.now).pieces) }
{
    draft.write(rows)
}

// Puts and writes the rows of the lines in these bytes, and answers how many bytes the lines take; or gives the number of the error that a write left.
fn write_rows(before: Stream, draft: &Draft, bytes: &[u8]) -> Result<usize, u64>
    requires { (length bytes.now ≤ 65536) × InHand before bytes.now }
    ensures { counts bytes.now result }
{
    let mut room = room();
    let rows = rows::put_rows(before.state.next_number(), bytes, &mut room);
    write_adjustments(before, bytes, draft, &room[..rows.size])?;
    Ok(rows.lines)
}

impl Hand {
    // Masks and writes the lines, and answers how many bytes they take; or gives the number of the error that a write left.
    fn write_masked(self, draft: &Draft, buffer: &mut [u8]) -> Result<usize, u64>
        requires { Held self buffer.old }
        ensures { finishes buffer.old self.end buffer.new result }
    {
        let lines = card_mask::mask_lines(&mut buffer[0..self.end]);
        write_finished(self.before, draft, &buffer[0..lines])?;
        Ok(lines)
    }

    // Writes what is made of the lines, and answers how many bytes they take.
    pub(crate) fn write_output(
        self,
        output: Output,
        draft: &Draft,
        buffer: &mut [u8],
    ) -> Result<usize, u64>
        requires { Held self buffer.old }
        ensures { finishes buffer.old self.end buffer.new result }
    {
        match output {
            Output::MaskedCopy => self.write_masked(draft, buffer),
            Output::Adjustments => write_rows(self.before, draft, &buffer[0..self.end]),
        }
    }
}

// Room for the header line, which has 86 bytes.
const HEADER_ROOM: usize = 86;

// Writes the line that names the fields of the rows. Nothing else here writes it.
fn write_header(draft: &Draft, line: &[u8]) -> Result<(), u64>
    requires { line.now ≡ header }
{
    draft.write(line)
}

// Writes what stands in front of all that is made of the lines, and gives the number of the error where it was not written.
pub(crate) fn write_first(output: Output, draft: &Draft) -> Result<(), u64> {
    match output {
        Output::MaskedCopy => Ok(()),
        Output::Adjustments => {
            let mut room = [0u8; HEADER_ROOM];
            let size = row::put_header(&mut room, 0);
            write_header(draft, &room[..size])
        }
    }
}
