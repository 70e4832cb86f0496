// A payroll file, read in chunks: lines over `program::stream`, which reads a file of either kind. What may not change is that each is asked by its name.
ghost use Rattle.payroll_program.specs.Checked.{Checked};

use crate::outcome;
use crate::outcome::{PayrollFile, PayrollOutcome};
use files::opening;
use payroll_stream::Stream;
use program::mistake::{Failed, Mistake};
use program::stream;
use std::io::Read;

// Checks the payroll file that a reader gives, 65,536 bytes at a time.
pub fn check<R: Read>(reader: &mut R) -> PayrollOutcome
    ensures { Checked result }
{
    let mut buffer = io::large_buffer();
    let (got, stream) = stream::read_chunks::<PayrollFile, R>(Stream::open(), reader, &mut buffer);
    outcome::outcome_at(got, stream)
}

// Checks the payroll file of a name.
pub fn check_file(rt: &HostRuntime, file: &[u8]) -> PayrollOutcome
    ensures { Checked result }
{
    let mut opened = opening::open(rt, file).map_err(|error| Mistake::System(Failed::Open, error))?;
    check(&mut opened)
}
