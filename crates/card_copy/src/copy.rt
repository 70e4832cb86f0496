// What is made of a card file's lines, written as long as the file is not refused.
ghost use Rattle.std.specs.Prelude.{◌-◌, ◌≤◌, ◌≡◌, length, take};
ghost use Rattle.files.specs.Loaded.{GotWithin};
ghost use Rattle.card_copy.specs.Copying.{Filled, Held, leaves};
ghost use Rattle.card_program.specs.Checked.{Checked};

use crate::hand::Hand;
use crate::output::Output;
use crate::{buffer, write};
use card_program::outcome;
use card_program::outcome::Outcome;
use card_stream::Stream;
use files::reading;
use files::reading::Got;
use out_file::draft::Draft;
use program::mistake::{Failed, Mistake};
use std::io::Read;

// What is made of a file's lines, and the edition that they are checked under.
#[derive(Clone, Copy)]
pub(crate) struct Copying {
    pub output: Output,
    pub edition: u64,
}

// Writes what is made of the lines in hand, moves the unfinished one to the front, and answers how many bytes of it wait there; or gives the number of the
// error that a write left.
fn write_lines(output: Output, hand: Hand, draft: &Draft, buffer: &mut [u8]) -> Result<usize, u64>
    requires { Held hand buffer.old }
    ensures { leaves buffer.old hand.end buffer.new result }
{
    let lines = hand.write_output(output, draft, buffer)?;
    buffer::move_to_front(buffer, lines, hand.end);
    Ok(buffer::tail_size(hand.end - lines, buffer.len()))
}

// Reads what comes next behind the unfinished line.
fn read_behind<R: Read>(reader: &mut R, buffer: &mut [u8], tail: usize) -> Got
    requires { tail ≤ length buffer.old }
    ensures within { GotWithin (length buffer.old - tail) result }
    ensures kept { take tail buffer.new ≡ take tail buffer.old }
{
    reading::read_some(reader, &mut buffer[tail..])
}

// `Filled` is a clause here and in `file`, and no type: the buffer is lent on, and filled again, by every call: a type over it would hold the lending.
impl Copying {
    // Checks a file of which the first bytes are in the buffer, and writes what is made of its lines as long as it is not refused.
    fn copy_by<R: Read>(
        self,
        reader: &mut R,
        draft: &Draft,
        buffer: &mut [u8],
        first: usize,
    ) -> Outcome
        requires { Filled buffer.old first }
        ensures { Checked self.edition result }
    {
        let mut stream = Stream::open(self.edition);
        let mut tail = 0;
        let mut end = first;
        for _ in 0..reading::MOST_READS {
            let hand = Hand {
                before: stream,
                end,
            };
            stream = stream.take(&buffer[tail..end]);
            if outcome::is_decided(stream.answer()) {
                return outcome::outcome_at(Ok(Some(end)), stream);
            }
            tail = write_lines(self.output, hand, draft, buffer).map_err(|error| Mistake::System(
                Failed::Write,
                error,
            ))?;
            let got = read_behind(reader, buffer, tail);
            let Ok(Some(size)) = got else {
                return outcome::outcome_at(got, stream);
            };
            end = tail + size;
        }
        Err(Mistake::System(Failed::Read, 0))
    }

    // The same, behind what stands in front of all that is made of the lines.
    pub(crate) fn copy_all<R: Read>(
        self,
        reader: &mut R,
        draft: &Draft,
        buffer: &mut [u8],
        first: usize,
    ) -> Outcome
        requires { Filled buffer.old first }
        ensures { Checked self.edition result }
    {
        write::write_first(self.output, draft).map_err(|error| Mistake::System(
            Failed::Write,
            error,
        ))?;
        self.copy_by(reader, draft, buffer, first)
    }
}
