// The ranges of an ACK frame: one step over them, the walk that the reader goes by it, and how they come to the lent slice.
ghost use Rattle.std.specs.Prelude.{◌≡◌, ◌+◌, ◌*◌, ◌≤◌, ◌<◌, length, take, set};
ghost use Rattle.wire.specs.Bytes.{splice};
ghost use Rattle.frames.specs.Ack.{ranges_from, read_range, IsWhole, Filled};

use crate::Range;
use wire::{Number, Refusal};

// Reads the range at at, whose largest is given, and, where left are after it, the gap below it.
pub fn read_range(s: &[u8], at: usize, largest: u64, left: u64) -> Result<Range, Refusal>
    ensures { result ≡ read_range left s.now at largest }
{
    let Ok(
        Number {
            value: len,
            next,
            ..
        },
    ) = wire::read_number(s, at)
    else {
        return Err(Refusal::Ends);
    };
    if largest < len {
        return Err(Refusal::BelowZero);
    }
    let smallest = largest - len;
    if left == 0 {
        return Ok(Range {
            smallest,
            below: 0,
            next,
        });
    }
    let Ok(
        Number {
            value: gap,
            next: after,
            ..
        },
    ) = wire::read_number(s, next)
    else {
        return Err(Refusal::Ends);
    };
    if smallest < gap + 2 {
        return Err(Refusal::BelowZero);
    }
    let below = smallest - gap - 2;
    Ok(Range {
        smallest,
        below,
        next: after,
    })
}

// Stores a range at i and gives the place after it, where the slice has room for it. Ranges stand in pairs in a lent slice, as document 01 names the form.
fn put_range(ranges: &mut [u64], i: usize, smallest: u64, largest: u64) -> usize
    requires { i ≤ length ranges.old }
    ensures { (length ranges.new ≡ length ranges.old) × (result ≤ length ranges.old) × (i + 2 ≤ length ranges.old → (result ≡ i + 2) × (ranges.new ≡ set (set ranges.old i smallest) (i + 1) largest)) }
{
    if ranges.len() - i < 2 {
        return i;
    }
    ranges[i] = smallest;
    ranges[i + 1] = largest;
    i + 2
}

// Walks over a first range whose largest is given and count ranges after it, and writes them where the slice has room for all: smallest before largest, newest range first.
// A turn takes two bytes or more, so the bytes and not the count bound its time.
// How many are left is told by a difference, and the last range stored by itself: so the compiler takes the step in line and asks once which is the last.
// The header's three numbers come by themselves: handed on in the header they go through memory, and an ACK of one range takes a sixth longer (tried).
pub(crate) fn walk_ranges(
    ranges: &mut [u64],
    s: &[u8],
    at: usize,
    largest: u64,
    count: u64,
) -> Result<usize, Refusal>
    ensures { (result ≡ (ranges_from count s.now at largest).walk) × Filled count s.now at largest ranges.old ranges.new }
{
    let mut high = largest;
    let mut place = at;
    let mut passed: u64 = 0;
    let mut i: usize = 0;
    loop {
        let Range {
            smallest,
            below,
            next,
        } = read_range(s, place, high, count - passed)?;
        if passed == count {
            put_range(ranges, i, smallest, high);
            return Ok(next);
        }
        i = put_range(ranges, i, smallest, high);
        high = below;
        place = next;
        passed += 1;
    }
}

// Writes the ranges of a checked frame: by a copy where they are so few that the check kept them, else by a second walk.
pub(crate) fn write_ranges(
    ranges: &mut [u64],
    few: &[u64; 16],
    s: &[u8],
    at: usize,
    largest: u64,
    count: u64,
)
    requires { IsWhole (ranges_from count s.now at largest).walk × (2 * (count + 1) ≤ length ranges.old) × (count < 8 → take (2 * (count + 1)) few.now ≡ (ranges_from count s.now at largest).pairs) }
    ensures { ranges.new ≡ splice ranges.old 0 (ranges_from count s.now at largest).pairs }
{
    if count < 8 {
        let n = 2 * (count as usize + 1);
        ranges[..n].copy_from_slice(&few[..n]);
        return;
    }
    let _ = walk_ranges(ranges, s, at, largest, count);
}
