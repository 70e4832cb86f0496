// The editions: which is retired, and why no file is read under one.
ghost use Rattle.std.specs.Prelude.{◌≡◌};
ghost use Rattle.edition.specs.Known.{known, retired, edition_fault};

use refusal::{Cause, Fault};

// Whether no file is read under this edition any more.
pub fn is_retired(edition: u64) -> bool
    ensures { result ≡ retired edition }
{
    edition == 1
}

// Whether there is such an edition.
fn is_known(edition: u64) -> bool
    ensures { result ≡ known edition }
{
    is_retired(edition) || edition == 2
}

// Why no file is read under this edition: 1, then 22, or nothing.
#[tactic(auto, unfolding(refusal::specs::Rules::first_broken))]
pub fn fault_of(edition: u64) -> Result<(), Fault>
    ensures { result ≡ edition_fault edition }
{
    refusal::rule(Cause::EditionUnknown, 0, is_known(edition))?;
    refusal::rule(Cause::EditionRetired, 0, !is_retired(edition))
}
