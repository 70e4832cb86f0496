// The row of a refusal.
ghost use Rattle.std.specs.Prelude.{◌≡◌, ◌-◌, ◌≤◌, ◌++◌, replicate};
ghost use Rattle.refusal.specs.Row.{refusal_row};
ghost use Rattle.answer_rows.specs.Row.{refusal_as_list};

use refusal::Refusal;

// A row that tells a refusal: its three numbers in front, and zeros.
pub(crate) fn refused_row<const N: usize>(refusal: Refusal) -> [u64; N]
    requires { 3 ≤ N }
    ensures { result ≡ refusal_as_list (refusal_row refusal) ++ replicate (N - 3) 0 }
{
    let mut row = [0u64; N];
    row[0] = refusal.cause.number();
    row[1] = refusal.record;
    row[2] = refusal.column;
    row
}
