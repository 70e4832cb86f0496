// A refusal of its three numbers.
ghost use Rattle.std.specs.Prelude.{◌≡◌};
ghost use Rattle.state_numbers.specs.Refusal.{refusal_of};

use refusal::{Cause, Refusal};

// The refusal with this number, record and column; a number that the list does not have is its first.
pub(crate) fn refusal_of(number: u64, at: u64, column: u64) -> Refusal
    ensures { result ≡ refusal_of number at column }
{
    Refusal {
        cause: Cause::numbered(number),
        record: at,
        column,
    }
}
