// The week's totals: what a file of reports comes to.
// Carries document 02, No. 13, all that stands between input and page; crate page has the page, and the program `week` reads and prints.
// Every public function takes any bytes and any totals.

#![tactic(auto)]

mod adding;
mod files;

pub use files::keep_rest;

// What is counted, each in its place: 0 reports accepted, 1 to 20 reports refused with that number, then the four
// summary totals, then the entries of each status.
pub const PLACES: usize = 29;

pub const AT_TOTAL: usize = 21;

pub const AT_RECEIVED: usize = 22;

pub const AT_LATE: usize = 23;

pub const AT_LOST: usize = 24;

// The entries with status 0; the other statuses follow.
const AT_ENTRIES: usize = 25;

// The longest report that is read, in bytes.
const LONGEST: usize = 8192;

// The refusal of a longer one.
const TOO_LONG: u64 = 20;

// The sums over the reports so far, by place.
#[repr(C)]
#[derive(Clone, Copy)]
pub struct Totals {
    // Each sum, or 2^64 - 1 where it would pass that.
    pub sums: [u64; PLACES],
    // Not 0 where the sum would pass 2^64 - 1.
    pub full: [u64; PLACES],
}

// Where a file stands between two pieces of it.
#[repr(C)]
#[derive(Clone, Copy)]
pub struct Standing {
    pub totals: Totals,
    // How many bytes of a report that is too long are still to be skipped.
    pub skip: usize,
}

// What the reports of a piece come to.
#[repr(C)]
#[derive(Clone, Copy)]
pub struct Taken {
    pub next: Standing,
    // How many bytes of the piece were taken; what follows them is no whole report yet.
    pub used: usize,
}

// What one report that was handed over by itself comes to.
#[repr(C)]
#[derive(Clone, Copy)]
pub struct Added {
    // The number under which the report was counted, 0 for accepted: no refusal of the call, for the totals change beside it.
    pub counted_as: u64,
    pub next: Standing,
}

// What one report brings: its number, 0 for accepted, and only then its totals and how many of its entries have each status.
// The number stays one, as report::Report, a C struct, has it: it is the place of the sum too.
#[derive(Clone, Copy)]
struct Brought {
    number: u64,
    total: u64,
    received: u64,
    late: u64,
    lost: u64,
    statuses: [u64; 4],
}

// What one step through a file takes.
#[derive(Clone, Copy)]
struct Step {
    // How many bytes are to be skipped after it.
    skip: usize,
    // How many bytes it took.
    used: usize,
}
