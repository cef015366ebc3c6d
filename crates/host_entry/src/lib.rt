// For the archive of crate host: one entry of a report under its C name. It is apart from the whole reader, so that what judges an entry
// goes in line in either.
// Where a lower crate answers a Result, a host gets the paper's number and the values, and 0 for what a refusal has not.

#![tactic(auto)]

ghost use Rattle.std.specs.Prelude.{◌≡◌};
ghost use Rattle.entries.specs.Entries.{entry_by};
ghost use Rattle.host_entry.specs.Entry.{no_entry, entry_out};

use report::Entry;
use wire::Refusal;

// One entry of a report.
#[repr(C)]
#[derive(Clone, Copy)]
pub struct EntryOut {
    pub result: u64,
    pub group: u64,
    pub object: u64,
    pub status: u64,
    pub age: u64,
}

// A refused entry has no values.
fn no_entry(refusal: Refusal) -> EntryOut
    ensures { result ≡ no_entry refusal }
{
    EntryOut {
        result: refusal.number(),
        group: 0,
        object: 0,
        status: 0,
        age: 0,
    }
}

// The entry's values, or the refusal.
fn entry_out(answer: Result<Entry, Refusal>) -> EntryOut
    ensures { result ≡ entry_out answer }
{
    match answer {
        Ok(entry) => EntryOut {
            result: 0,
            group: entry.group,
            object: entry.object,
            status: entry.status.number(),
            age: entry.age,
        },
        Err(refusal) => no_entry(refusal),
    }
}

// Reads one entry of that part.
#[unsafe(no_mangle)]
pub extern "C" fn lumbixet_read_entry(profile: u64, entries: &[u8], index: usize) -> EntryOut
    ensures { result ≡ entry_out (entry_by profile entries.now index) }
{
    let answer = report::read_entry(profile, entries, index);
    entry_out(answer)
}
