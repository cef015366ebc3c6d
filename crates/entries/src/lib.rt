// Entry records, 16 bytes in profile 1 and 24 in profile 2: one by itself, records in a row, and how many of the last ones fit a room.
// Carries "An entry" of document 01 and the records of No. 10, and what the report's reader and writer ask of records.
// Every public function takes any bytes and any numbers, and refuses by the paper's table.

#![tactic(auto)]

ghost use Rattle.std.specs.Prelude.{◌≡◌, ◌/◌};
ghost use Rattle.entries.specs.Profiles.{Numbered, record_size};
ghost use Rattle.entries.specs.Entries.{status_number};

use wire::Refusal;

mod fit;
mod one;
mod row;

pub use fit::fitting;
pub use one::{entry_at, entry_of, read_entry};
pub use row::{entries_fault, entries_good, good_run};

// The length of an entry record in bytes; in profile 2 its group comes before that.
pub const RECORD: usize = 16;

// The length of a group in bytes.
const GROUP: usize = 8;

// At most so many entries in a report.
pub const MOST_ENTRIES: usize = 200;

// At most so many records are handed to a writer.
const MOST_GIVEN: usize = 256;

// The profile of a report, once the number that the caller passed was found to be 1 or 2.
#[derive(Clone, Copy)]
pub enum Profile {
    One,
    Two,
}

// What became of an object, each under the number that a record holds for it.
#[derive(Clone, Copy, PartialEq, Eq)]
pub enum Status {
    Received = 0,
    Late = 1,
    NotReceived = 2,
    Partial = 3,
}

impl Status {
    // The number in a record.
    pub fn number(self) -> u64
        ensures { result ≡ status_number self }
    {
        self as u64
    }
}

// An entry. Its group is 0 in profile 1.
#[derive(Clone, Copy)]
pub struct Entry {
    pub group: u64,
    pub object: u64,
    pub status: Status,
    pub age: u64,
}

// The parts of the 16 bytes behind a group, before they are judged.
#[derive(Clone, Copy)]
struct Parts {
    object: u64,
    status: u64,
    zeros: u64,
    age: u64,
}

// How many records in a row are good, and what the last of them leaves for the next: its group and one past its object number.
#[derive(Clone, Copy)]
pub struct Run {
    pub good: usize,
    pub last: u64,
    pub above: u64,
}

// The profile that has the number, where one of the two does.
impl TryFrom<u64> for Profile {
    type Error = Refusal;

    ghost try_from_gives = { Numbered };

    fn try_from(number: u64) -> Result<Self, Refusal> {
        match number {
            1 => Ok(Profile::One),
            2 => Ok(Profile::Two),
            _ => Err(Refusal::OtherProfile),
        }
    }
}

// The length of a record in bytes, with its group where it has one.
pub fn record_size(profile: Profile) -> usize
    ensures { result ≡ record_size profile }
{
    match profile {
        Profile::One => RECORD,
        Profile::Two => GROUP + RECORD,
    }
}

// How many whole records the bytes hold. Each arm divides by a constant, which is faster than by a size that was handed over.
pub fn records_in(profile: Profile, bytes: usize) -> usize
    ensures { result ≡ bytes / record_size profile }
{
    match profile {
        Profile::One => bytes / RECORD,
        Profile::Two => bytes / (GROUP + RECORD),
    }
}
