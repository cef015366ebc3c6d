// Numbers, times and ends: which are small enough, and arithmetic that stays in range.
ghost use Rattle.std.specs.Prelude.{◌≡◌, ◌&&◌, ◌-◌, max};
ghost use Rattle.seen.specs.Numbers.{small, small_end};

// The largest number and time: 2^62 - 1.
const LIMIT: u64 = wire::LARGEST;

// The largest end, one past the largest number, and the most that N counts: 2^62.
pub const MOST: u64 = LIMIT + 1;

// Whether a number or time obeys 5.
pub fn is_small(n: u64) -> bool
    ensures { result ≡ small n }
{
    n <= LIMIT
}

// Whether four numbers obey 5.
pub fn all_small(a: u64, b: u64, c: u64, d: u64) -> bool
    ensures { result ≡ (small a && (small b && (small c && small d))) }
{
    is_small(a) && is_small(b) && is_small(c) && is_small(d)
}

// Whether an end is at most one past the largest number; N may be as large.
pub fn is_small_end(end: u64) -> bool
    ensures { result ≡ small_end end }
{
    end <= MOST
}

// The two that follow are the library's. They have names of their own since a theorem of each says that no other result would do,
// and of a function of the library none can be stated here.

// a less b, and 0 where b is larger.
pub fn minus_or_zero(a: u64, b: u64) -> u64
    ensures { result ≡ a - b }
{
    a.saturating_sub(b)
}

pub fn larger_of(a: u64, b: u64) -> u64
    ensures { result ≡ max a b }
{
    a.max(b)
}
