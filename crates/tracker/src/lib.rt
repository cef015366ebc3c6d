// The tracker of object statuses: what became of 256 objects in a row, and the report's summary and entries from that.
// Carries request No. 4 of document 02; statuses and summary are those of MoQ Multimodal Feedback.
// The record is large, so the caller lends it and it is updated there; a refused call leaves it as it was.

#![tactic(auto)]

mod average;
mod calls;
mod counting;
mod record;
mod records;
mod summary;

pub use calls::{arrived, ended_early, open};
pub use summary::report;

// So many objects are tracked, from the first one on.
pub const OBJECTS: usize = 256;

// The record is so many words: the four below, in their order.
pub const WORDS: usize = AT_OBJECTS + OBJECTS;

// This word is the number of the first object.
const AT_FIRST: usize = 0;

// This word is the expected interval between arrivals, in microseconds.
const AT_INTERVAL: usize = 1;

// This word is the place of the first arrival by order of calls, as an end: one past it, and 0 for none.
const AT_NAMED: usize = 2;

// From here on each object has a word: its state in the two top bits, the time in the other 62.
const AT_OBJECTS: usize = 3;

// One past the largest time: a word is its state times this, and the time.
const TIMES: u64 = wire::LARGEST + 1;

// The states stay numbers: they are bits of the record's words, which a host keeps for lumbixet_tracker_open and its kin.
// Nothing is known of the object; the time means nothing.
const NOTHING: u64 = 0;

// The object ended early, at the time of that word.
const ENDED_EARLY: u64 = 1;

// The object arrived at the time, no later than its deadline.
const RECEIVED: u64 = 2;

// The object arrived at the time, after its deadline.
const LATE: u64 = 3;

// What one walk over the arrivals gathers.
#[derive(Clone, Copy)]
struct Spread {
    // This is the end of the highest place that arrived.
    top: u64,
    // The earliest arrival was at this time; it means nothing before one came.
    earliest: u64,
    // The latest arrival was at this time.
    latest: u64,
}

// How many objects have each status.
#[derive(Clone, Copy)]
struct Counts {
    received: u64,
    late: u64,
    missing: u64,
    partial: u64,
}
