// A file that is judged as its bytes come, a chunk at a time.
ghost use Rattle.std.specs.Prelude.{ℕ, ◌≡◌, Bool, List};
ghost use Rattle.program.specs.Stream.{Taken, at_end};

use crate::mistake::{Failed, Mistake};
use files::reading;
use files::reading::Got;
use std::io::Read;

// How the stream of one kind of file takes its chunks.
pub trait Judge {
    type Stream: Copy;

    ghost taken_of: { Self.Stream → List ℕ → Self.Stream };

    ghost ended_of: { Self.Stream → Self.Stream };

    ghost is_decided: { Self.Stream → Bool };

    // The stream once the next chunk has come.
    fn taken(stream: Self::Stream, chunk: &[u8]) -> Self::Stream
        ensures { result ≡ taken_of stream chunk.now };

    // The stream at the file's end.
    fn ended(stream: Self::Stream) -> Self::Stream
        ensures { result ≡ ended_of stream };

    // Whether no further byte can change its answer.
    fn decided(stream: Self::Stream) -> bool
        ensures { result ≡ is_decided stream };
}

// Reads until the end, an error, or where the answer is decided, and hands back what the last read means. A file of more reads than are counted counts as
// unreadable.
pub fn read_chunks<J: Judge, R: Read>(
    start: J::Stream,
    reader: &mut R,
    buffer: &mut [u8],
) -> (Got, J::Stream)
    ensures { Taken J.taken_of start result.1 }
{
    let mut stream = start;
    for _ in 0..reading::MOST_READS {
        let got = reading::read_some(reader, buffer);
        let Ok(Some(size)) = got else {
            return (got, stream);
        };
        stream = J::taken(stream, &buffer[..size]);
        if J::decided(stream) {
            return (got, stream);
        }
    }
    (Err(0), stream)
}

// The stream at the end of a file of which it has taken all bytes so far, and of which the last read means this; or that the file was not read to its end.
pub fn at_end<J: Judge>(got: Got, stream: J::Stream) -> Result<J::Stream, Mistake>
    ensures { result ≡ at_end J.ended_of J.is_decided got stream }
{
    match got {
        Ok(None) => Ok(J::ended(stream)),
        Ok(Some(_)) if J::decided(stream) => Ok(J::ended(stream)),
        Ok(Some(_)) => Err(Mistake::System(Failed::Read, 0)),
        Err(error) => Err(Mistake::System(Failed::Read, error)),
    }
}
