// The feedback report: a header of wire numbers, then entries, records of 16 bytes each in profile 1 and of 24 in profile 2.
// Carries "The feedback report" of document 01 and the profiles of No. 10: the whole reader, its companion for the entries, one entry, the writer.
// Every public function takes any bytes and any header, and refuses by the paper's table.

#![tactic(auto)]

mod head;
mod headers;
mod judging;
pub mod layout;
mod reader;
mod writer;

pub use entries::{Entry, Status, read_entry};
pub use head::read_head;
pub use headers::{average, empty_header};
pub use judging::{first_fault, judge_field, last_of, most_metrics, number_at, wanted};
pub use reader::{entries_of, read_report};
pub use writer::write_report;

// A header has places for so many metrics, whatever its profile.
pub const METRIC_PLACES: usize = 8;

// The numbers that every header has, a type and a value for each metric, and the entry count.
pub const MOST_NUMBERS: usize = layout::FIXED + 2 * METRIC_PLACES + 1;

// The summary of a report, and what comes with it. On a refusal all numbers are 0. Types and values stand in two arrays, as C has them.
#[repr(C)]
#[derive(Clone, Copy, Default)]
pub struct Header {
    // when the report was made, in microseconds
    pub timestamp: u64,
    // how long a time the summary covers, in microseconds
    pub interval: u64,
    // how many objects the summary counts: received, late and lost together
    pub total: u64,
    // how many came in time
    pub received: u64,
    // how many came late
    pub late: u64,
    // how many came not at all, or in part
    pub lost: u64,
    // the average deviation of the arrival gaps, in microseconds
    pub average: i64,
    // how many metrics follow
    pub metrics: u64,
    // the type of each metric, 0 from the count on
    pub kinds: [u64; METRIC_PLACES],
    // the value of each metric, 0 from the count on
    pub values: [u64; METRIC_PLACES],
    // how many entries follow; the writer takes no heed of it
    pub entries: u64,
}

// What reading a report finds: 0 and its header, or a refusal and the empty header. It is the record of the C interface, and so no Result.
#[repr(C)]
#[derive(Clone, Copy)]
pub struct Report {
    pub refusal: u64,
    pub header: Header,
}

// What the header's numbers say of the entries: the place where they begin, and how many there are.
#[derive(Clone, Copy)]
pub struct Announced {
    pub next: usize,
    pub entries: u64,
}

// A report that was written: the place after it, and how many records were kept.
#[derive(Clone, Copy)]
pub struct Written {
    pub next: usize,
    pub kept: usize,
}

// The numbers of a report that were read: the place after them, how many they are, and the numbers themselves, in memory of a fixed size.
#[derive(Clone, Copy)]
struct NumbersRead {
    next: usize,
    count: usize,
    numbers: [u64; MOST_NUMBERS],
}
