// The kinds of record: "Kind is position 8", and "a detail's segment is position 14".
ghost use Rattle.std.specs.Prelude.{◌≡◌};
ghost use Rattle.payroll_record.specs.Kind.{segment_of, kind_of};

use crate::field::Field;

#[derive(Clone, Copy)]
pub enum Kind {
    FileHeader,
    BatchHeader,
    SegmentA,
    SegmentB,
    SegmentZ,
    BatchTrailer,
    FileTrailer,
}

// Why a record is of no kind: its kind or its segment is none of these.
#[derive(Clone, Copy)]
pub enum NoKind {
    UnknownKind,
    UnknownSegment,
}

// The segment of a detail.
#[tactic(auto, using(crate::proofs::OneByte::same_byte, crate::proofs::OneByte::no_byte, crate::proofs::OneByte::more_bytes), unfolding(crate::specs::Kind::segment_named))]
fn segment_of(bytes: &[u8]) -> Result<Kind, NoKind>
    ensures { result ≡ segment_of bytes.now }
{
    match Field::SEGMENT.part(bytes) {
        b"A" => Ok(Kind::SegmentA),
        b"B" => Ok(Kind::SegmentB),
        b"Z" => Ok(Kind::SegmentZ),
        _ => Err(NoKind::UnknownSegment),
    }
}

// The kind of a record.
#[tactic(auto, using(crate::proofs::OneByte::same_byte, crate::proofs::OneByte::no_byte, crate::proofs::OneByte::more_bytes), unfolding(crate::specs::Kind::kind_named))]
pub fn kind_of(bytes: &[u8]) -> Result<Kind, NoKind>
    ensures { result ≡ kind_of bytes.now }
{
    match Field::KIND.part(bytes) {
        b"3" => segment_of(bytes),
        b"1" => Ok(Kind::BatchHeader),
        b"5" => Ok(Kind::BatchTrailer),
        b"0" => Ok(Kind::FileHeader),
        b"9" => Ok(Kind::FileTrailer),
        _ => Err(NoKind::UnknownKind),
    }
}
