// What the walks over the objects gather for the summary.
ghost use Rattle.std.specs.Prelude.{◌≡◌, ◌+◌, ◌<◌, ◌≤◌};
ghost use Rattle.tracker.specs.Record.{named_of};
ghost use Rattle.tracker.specs.Status.{code_of};
ghost use Rattle.tracker.specs.Counting.{no_arrival, widened, spread_from, reach_of, loss_end, status_by, no_counts, counted_in, counts_from};

use crate::record::{has_arrived, state};
use crate::{
    AT_INTERVAL, AT_NAMED, AT_OBJECTS, Counts, ENDED_EARLY, LATE, OBJECTS, RECEIVED, Spread, TIMES,
    WORDS,
};
use entries::Status;
use wire::LARGEST;

// The spread with one more object.
fn widened(spread: Spread, word: u64, place: usize) -> Spread
    requires { place < 256 }
    ensures { result ≡ widened spread word place }
{
    if !has_arrived(word) {
        return spread;
    }
    let time = word % TIMES;
    Spread {
        top: (place as u64) + 1,
        earliest: spread.earliest.min(time),
        latest: spread.latest.max(time),
    }
}

// The highest place that arrived, the earliest and the latest arrival.
pub(crate) fn spread_of(tracker: &[u64; WORDS]) -> Spread
    ensures { (result ≡ spread_from tracker.now 256 0 no_arrival) × (result.latest < 4611686018427387904) }
{
    let mut spread = Spread {
        top: 0,
        earliest: LARGEST,
        latest: 0,
    };
    for place in 0..OBJECTS {
        spread = widened(spread, tracker[AT_OBJECTS + place], place);
    }
    spread
}

// How many whole intervals fit in the time passed with time to spare; 257, more than there are places, where the interval is 0.
fn reach(interval: u64, passed: u64) -> u64
    ensures { (result ≡ reach_of interval passed) × (result ≤ 257 + passed) }
{
    if passed == 0 {
        return 0;
    }
    if interval == 0 {
        return 257;
    }
    (passed - 1) / interval
}

// An object of which nothing is known is lost if its place is more than one below this.
pub(crate) fn loss_end(tracker: &[u64; WORDS], time: u64, top: u64) -> u64
    requires { (time < 4611686018427387904) × (named_of tracker.now ≤ 256) }
    ensures { result ≡ loss_end tracker.now time top }
{
    let named = tracker[AT_NAMED];
    if named == 0 {
        return 0;
    }
    let place = named - 1;
    let at = AT_OBJECTS + place as usize;
    let first = tracker[at] % TIMES;
    top.max(place + reach(tracker[AT_INTERVAL], time.saturating_sub(first)))
}

// The status of an object from its word and place, by the end of those lost, or that it has none.
pub(crate) fn status(word: u64, place: usize, end: u64) -> Option<Status>
    requires { place < 256 }
    ensures { code_of result ≡ status_by end word place }
{
    let known = state(word);
    if known == RECEIVED {
        return Some(Status::Received);
    }
    if known == LATE {
        return Some(Status::Late);
    }
    if known == ENDED_EARLY {
        return Some(Status::Partial);
    }
    if (place as u64) + 1 < end {
        return Some(Status::NotReceived);
    }
    None
}

// The counts with one object more.
fn counted(counts: Counts, status: Option<Status>) -> Counts
    requires { (counts.received < 1000) × ((counts.late < 1000) × ((counts.missing < 1000) × (counts.partial < 1000))) }
    ensures { result ≡ counted_in counts (code_of status) }
{
    let mut next = counts;
    match status {
        Some(Status::Received) => next.received += 1,
        Some(Status::Late) => next.late += 1,
        Some(Status::NotReceived) => next.missing += 1,
        Some(Status::Partial) => next.partial += 1,
        None => {}
    }
    next
}

// How many objects have each status, by the end of those lost.
pub(crate) fn counts_of(tracker: &[u64; WORDS], end: u64) -> Counts
    ensures { result ≡ counts_from end tracker.now 256 0 no_counts }
{
    let mut counts = Counts {
        received: 0,
        late: 0,
        missing: 0,
        partial: 0,
    };
    for place in 0..OBJECTS {
        counts = counted(counts, status(tracker[AT_OBJECTS + place], place, end));
    }
    counts
}
