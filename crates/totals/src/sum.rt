// The sum of two numbers of 64 bits.
ghost use Rattle.std.specs.Prelude.{◌≡◌};
ghost use Rattle.totals.specs.Sum.{sum_of, capped};

// The sum, where it has 64 bits.
pub fn checked(a: u64, b: u64) -> Option<u64>
    ensures { result ≡ sum_of a b }
{
    a.checked_add(b)
}

// The sum, or the largest number of 64 bits where it is larger still.
pub fn added(a: u64, b: u64) -> u64
    ensures { result ≡ capped a b }
{
    a.saturating_add(b)
}
