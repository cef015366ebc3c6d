// The average deviation of the arrival gaps, by divisions alone: a product could pass 64 bits.
ghost use Rattle.std.specs.Prelude.{◌≡◌, ◌<◌, leb};
ghost use Rattle.wire.specs.Numbers.{limit};
ghost use Rattle.report.specs.Average.{stored_of};
ghost use Rattle.tracker.specs.Counting.{mean_by};

// An average from -2^61 to 2^61 - 1 is in its range.
const HALF: i64 = 2305843009213693952;

// The average deviation from the interval of so many gaps that add up to the spread, rounded toward zero; 0 where there is no gap.
pub(crate) fn mean(spread: u64, gaps: u64, interval: u64) -> i64
    requires { (spread < 4611686018427387904) × (interval < 4611686018427387904) }
    ensures { result ≡ mean_by spread gaps interval }
{
    if gaps == 0 {
        return 0;
    }
    let whole = spread / gaps;
    if interval <= whole {
        return (whole - interval) as i64;
    }
    if spread % gaps == 0 {
        return -((interval - whole) as i64);
    }
    -((interval - (whole + 1)) as i64)
}

// Whether an average is in its range.
pub(crate) fn in_range(mean: i64) -> bool
    ensures { result ≡ leb (stored_of mean) limit }
{
    -HALF <= mean && mean < HALF
}
