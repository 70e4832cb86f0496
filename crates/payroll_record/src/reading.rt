// What reading a record's bytes answers. It looks at one record alone; what the file so far decides is left as numbers.
ghost use Rattle.std.specs.Prelude.{◌≡◌};
ghost use Rattle.payroll_record.specs.Reading.{read_as, reading_of};

use crate::batch_header::BatchHeader;
use crate::batch_trailer::BatchTrailer;
use crate::detail::Detail;
use crate::file_header::FileHeader;
use crate::file_trailer::FileTrailer;
use crate::kind::{Kind, NoKind};

// What reading answers. No `Result`: a record that is unknown or faulty is judged at its place like any other, and its fault comes behind that of the place.
#[derive(Clone, Copy)]
pub enum Reading {
    WrongWidth,
    Unknown(NoKind),
    FileHeader(FileHeader),
    BatchHeader(BatchHeader),
    Detail(Detail),
    BatchTrailer(BatchTrailer),
    FileTrailer(FileTrailer),
}

// The bytes as a record of this kind.
#[tactic(auto, unfolding(crate::specs::Reading::read_as))]
fn read_as(kind: Kind, bytes: &[u8]) -> Reading
    ensures { result ≡ read_as kind bytes.now }
{
    match kind {
        Kind::FileHeader => Reading::FileHeader(FileHeader::read(bytes)),
        Kind::BatchHeader => Reading::BatchHeader(BatchHeader::read(bytes)),
        Kind::SegmentA => Reading::Detail(Detail::read_a(bytes)),
        Kind::SegmentB => Reading::Detail(Detail::read_other(Kind::SegmentB, bytes)),
        Kind::SegmentZ => Reading::Detail(Detail::read_other(Kind::SegmentZ, bytes)),
        Kind::BatchTrailer => Reading::BatchTrailer(BatchTrailer::read(bytes)),
        Kind::FileTrailer => Reading::FileTrailer(FileTrailer::read(bytes)),
    }
}

// Any bytes as a record, without a line end.
#[tactic(auto, unfolding(crate::specs::Reading::read_found))]
pub fn read(bytes: &[u8]) -> Reading
    ensures { result ≡ reading_of bytes.now }
{
    if bytes.len() != crate::field::WIDTH {
        return Reading::WrongWidth;
    }
    match crate::kind::kind_of(bytes) {
        Ok(kind) => read_as(kind, bytes),
        Err(unknown) => Reading::Unknown(unknown),
    }
}
