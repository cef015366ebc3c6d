// Reports that arrive over several reads: a reader that takes successive parts and carries at most one unfinished field or record.
// Carries request No. 6 of document 02. The caller lends the record, and it is updated there.
// Every public function takes any bytes and any record, and refuses by the paper's table.

#![tactic(auto)]

mod calls;
mod fields;
mod fitness;
mod header;
mod records;
mod rest;
mod words;

pub use calls::{end, open, take};
use report::{Header, MOST_NUMBERS};

// The record is so many words: the five below and two counts, then the header's numbers, then the bytes that are carried.
pub const WORDS: usize = AT_HELD + CARRIED;

// The length of the longest record in bytes, and so of what is carried.
const CARRIED: usize = 24;

// This word is the profile's number.
const AT_PROFILE: usize = 0;

// This word says where the report stands.
const AT_STAGE: usize = 1;

// This word is how many records are not yet whole, how many bytes are counted on, or the refusal that stands.
const AT_LEFT: usize = 2;

// This word is the group of the record before, 0 before the first.
const AT_LAST: usize = 3;

// This word is one past the object number of the record before, 0 before the first.
const AT_ABOVE: usize = 4;

// This word is how many numbers of the header have come.
const AT_COUNT: usize = 5;

// This word is how many bytes are carried.
const AT_CARRIED: usize = 6;

// From here on stand the numbers of the header.
const AT_NUMBERS: usize = 7;

// From here on stand the bytes that are carried, one to a word.
const AT_HELD: usize = AT_NUMBERS + MOST_NUMBERS;

// The header's numbers are coming.
const NUMBERS: u64 = 0;

// The records are coming.
const RECORDS: u64 = 1;

// A bad record came, and the bytes are counted on.
const COUNTING: u64 = 2;

// A refusal stands.
const REFUSED: u64 = 3;

// The end was said, and the report was accepted.
const ACCEPTED: u64 = 4;

// What a call answers: the record of the C interface, and so no Result.
#[repr(C)]
#[derive(Clone, Copy)]
pub struct Taken {
    // 0, or the refusal
    pub result: u64,
    // how many bytes of the part were taken
    pub taken: usize,
    // how many records were written
    pub records: usize,
    // 1 where the header is whole and no refusal stands
    pub whole: u64,
    // the header once it is whole, otherwise the empty one
    pub header: Header,
}

// Where a report stands, by the names of the words. The header's numbers and the bytes that are carried stay in the words that were lent:
// handed on, they would be copied. Stages and refusals are numbers, as the words of the C interface hold them. Profile, marks and words go
// side by side from step to step, since some steps write the words and others only read them.
#[derive(Clone, Copy)]
struct Marks {
    stage: u64,
    left: u64,
    last: u64,
    above: u64,
    count: usize,
    carried: usize,
}

// Where some bytes of a part lead to, and how many they and the records they brought are.
#[derive(Clone, Copy)]
struct Walked {
    now: Marks,
    taken: usize,
    records: usize,
}
