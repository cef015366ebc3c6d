// Opening, an arrival and an early end.
ghost use Rattle.std.specs.Prelude.{◌≡◌, ◌<◌, ◌^◌, IfOk};
ghost use Rattle.wire.specs.Refusals.{refusal_number};
ghost use Rattle.tracker.specs.Calls.{open_refusal, open_after, place_of, object_refusal, arrival_word, arrival_obeys, arrived_refusal, arrived_after, ended_refusal, ended_after};

use crate::record::{both_obey, consistent, has_arrived, numbers_obey, state};
use crate::{
    AT_FIRST, AT_INTERVAL, AT_NAMED, AT_OBJECTS, ENDED_EARLY, LATE, NOTHING, OBJECTS, RECEIVED,
    TIMES, WORDS,
};
use wire::Refusal;

// Opens a tracker for the 256 objects from the first one on. What stood in the words is not looked at.
pub fn open(tracker: &mut [u64; WORDS], first: u64, interval: u64) -> Result<(), Refusal>
    ensures { (refusal_number result ≡ open_refusal first interval) × (tracker.new ≡ open_after tracker.old first interval) }
{
    if !numbers_obey(first, interval) {
        return Err(Refusal::TooLarge);
    }
    let mut words = [0u64; WORDS];
    words[AT_FIRST] = first;
    words[AT_INTERVAL] = interval;
    *tracker = words;
    Ok(())
}

// The place of the object that a call names, or the refusal; obey says whether its numbers obey 5.
fn place_of(tracker: &[u64; WORDS], object: u64, obey: bool) -> Result<usize, Refusal>
    ensures { (refusal_number result ≡ object_refusal tracker.now object obey) × IfOk result (λ place. (place ≡ place_of tracker.now object) × (place < 256)) }
{
    if !consistent(tracker) {
        return Err(Refusal::Inconsistent);
    }
    if !obey {
        return Err(Refusal::TooLarge);
    }
    let first = tracker[AT_FIRST];
    if object < first {
        return Err(Refusal::OtherObject);
    }
    let place = object - first;
    if place < OBJECTS as u64 {
        return Ok(place as usize);
    }
    Err(Refusal::OtherObject)
}

// Whether an arrival's numbers obey 5; the deadline is an end.
fn arrival_obeys(object: u64, time: u64, deadline: u64) -> bool
    ensures { result ≡ arrival_obeys object time deadline }
{
    if !both_obey(object, time) {
        return false;
    }
    deadline <= TIMES
}

// The word of an arrival: late if it exceeds a known deadline, otherwise received.
fn arrival_word(time: u64, deadline: u64) -> u64
    requires { time < 2 ^ 62 }
    ensures { result ≡ arrival_word time deadline }
{
    if deadline == 0 {
        return RECEIVED * TIMES + time;
    }
    if deadline - 1 < time {
        return LATE * TIMES + time;
    }
    RECEIVED * TIMES + time
}

// An object arrives. Its deadline is an end: one past it, and 0 for none. A second arrival is ignored.
pub fn arrived(
    tracker: &mut [u64; WORDS],
    object: u64,
    time: u64,
    deadline: u64,
) -> Result<(), Refusal>
    ensures { (refusal_number result ≡ arrived_refusal tracker.old object time deadline) × (tracker.new ≡ arrived_after tracker.old object time deadline) }
{
    let place = place_of(tracker, object, arrival_obeys(object, time, deadline))?;
    let at = AT_OBJECTS + place;
    if has_arrived(tracker[at]) {
        return Ok(());
    }
    if tracker[AT_NAMED] == 0 {
        tracker[AT_NAMED] = (place as u64) + 1;
    }
    tracker[at] = arrival_word(time, deadline);
    Ok(())
}

// It stands beside arrived: the two differ in what they test and in what they write, so one function for both would be no plainer.
// An object ended early, by the caller's word. A second early end, or one after an arrival, is ignored.
pub fn ended_early(tracker: &mut [u64; WORDS], object: u64, time: u64) -> Result<(), Refusal>
    ensures { (refusal_number result ≡ ended_refusal tracker.old object time) × (tracker.new ≡ ended_after tracker.old object time) }
{
    let place = place_of(tracker, object, both_obey(object, time))?;
    let at = AT_OBJECTS + place;
    if state(tracker[at]) != NOTHING {
        return Ok(());
    }
    tracker[at] = ENDED_EARLY * TIMES + time;
    Ok(())
}
