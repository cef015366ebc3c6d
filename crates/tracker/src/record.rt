// What the words of the record say, and which records are consistent.
ghost use Rattle.std.specs.Prelude.{◌≡◌};
ghost use Rattle.tracker.specs.Record.{has_arrived, state_of, both_obey, none_arrived, first_named, numbers_obey, consistent};

use crate::{AT_FIRST, AT_INTERVAL, AT_NAMED, AT_OBJECTS, OBJECTS, RECEIVED, TIMES, WORDS};
use wire::LARGEST;

// The state in a word.
pub(crate) fn state(word: u64) -> u64
    ensures { result ≡ state_of word }
{
    word / TIMES
}

// Whether a word says that its object arrived.
pub(crate) fn has_arrived(word: u64) -> bool
    ensures { result ≡ has_arrived word }
{
    RECEIVED <= word / TIMES
}

// Whether both numbers obey 5.
pub(crate) fn both_obey(m: u64, n: u64) -> bool
    ensures { result ≡ both_obey m n }
{
    if LARGEST < m {
        return false;
    }
    n <= LARGEST
}

// Whether the numbers of the 256 objects and the interval obey 5.
pub(crate) fn numbers_obey(first: u64, interval: u64) -> bool
    ensures { result ≡ numbers_obey first interval }
{
    if LARGEST < first {
        return false;
    }
    both_obey(first + 255, interval)
}

// Whether no object arrived.
fn none_arrived(tracker: &[u64; WORDS]) -> bool
    ensures { result ≡ none_arrived 256 0 tracker.now }
{
    for place in 0..OBJECTS {
        if has_arrived(tracker[AT_OBJECTS + place]) {
            return false;
        }
    }
    true
}

// Whether the first arrival named arrived, or where none is named no object did.
fn first_named(tracker: &[u64; WORDS]) -> bool
    ensures { result ≡ first_named tracker.now }
{
    let named = tracker[AT_NAMED];
    if named == 0 {
        return none_arrived(tracker);
    }
    if (OBJECTS as u64) < named {
        return false;
    }
    let at = AT_OBJECTS + (named - 1) as usize;
    has_arrived(tracker[at])
}

// Whether the record is consistent.
pub(crate) fn consistent(tracker: &[u64; WORDS]) -> bool
    ensures { result ≡ consistent tracker.now }
{
    if !numbers_obey(tracker[AT_FIRST], tracker[AT_INTERVAL]) {
        return false;
    }
    first_named(tracker)
}
