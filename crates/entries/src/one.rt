// One entry record.
ghost use Rattle.std.specs.Prelude.{◌≡◌, ◌≤◌};
ghost use Rattle.wire.specs.Fields.{read_fixed};
ghost use Rattle.entries.specs.Profiles.{group_bytes};
ghost use Rattle.entries.specs.Entries.{entry, entry_from, entry_behind, entry_of, entry_at, entry_by};
ghost use Rattle.entries.specs.Steps.{rest_good, parts_in};

use crate::{Entry, Parts, Profile, RECORD, Status, record_size, records_in};
use wire::{Fixed, LARGEST, Refusal};

// The group of a record and the place behind it, both 0 where the profile has none.
fn group_in(profile: Profile, bytes: &[u8]) -> Result<Fixed, Refusal>
    ensures { result ≡ read_fixed (group_bytes profile) bytes.now 0 }
{
    match profile {
        Profile::One => Ok(Fixed { value: 0, next: 0 }),
        Profile::Two => wire::read_fixed8(bytes, 0),
    }
}

// The entry in a record's bytes: its group, where the profile has one, then the rest.
pub fn entry_of(profile: Profile, bytes: &[u8]) -> Result<Entry, Refusal>
    ensures { result ≡ entry_of profile bytes.now }
{
    let Ok(Fixed { value, next }) = group_in(profile, bytes) else {
        return Err(Refusal::Ends);
    };
    entry_behind(value, &bytes[next..])
}

// The entry in the 16 bytes behind the group.
fn entry_behind(group: u64, bytes: &[u8]) -> Result<Entry, Refusal>
    ensures { result ≡ entry_behind group bytes.now }
{
    let Some(parts) = parts_in(bytes) else {
        return Err(Refusal::Ends);
    };
    judge_entry(group, parts)
}

// Each field is taken apart by `let .. else`, the form that document 01 names; none is refused within 16 bytes.
// The parts of the 16 bytes behind a group. The status and the three zero bytes are read as one field of four bytes.
pub(crate) fn parts_in(bytes: &[u8]) -> Option<Parts>
    ensures { result ≡ parts_in bytes.now }
{
    if bytes.len() < RECORD {
        return None;
    }
    let Ok(object) = wire::read_fixed8(bytes, 0) else {
        return None;
    };
    let Ok(mark) = wire::read_fixed4(bytes, 8) else {
        return None;
    };
    let Ok(age) = wire::read_fixed4(bytes, 12) else {
        return None;
    };
    Some(Parts {
        object: object.value,
        status: mark.value / 16777216,
        zeros: mark.value % 16777216,
        age: age.value,
    })
}

// An entry that obeys its rule.
fn made(group: u64, object: u64, status: Status, age: u64) -> Result<Entry, Refusal>
    ensures { result ≡ entry group object status age }
{
    Ok(Entry {
        group,
        object,
        status,
        age,
    })
}

// The largest age that four bytes hold.
const LARGEST_AGE: u64 = 4294967295;

// Whether what comes behind the object number obeys its rule. The oldest age of a status is worked out, 0 for status 2 alone, and not
// asked for by a test, since no processor can foretell the status of a record.
pub(crate) fn rest_good(status: u64, zeros: u64, age: u64) -> bool
    requires { age ≤ 4294967295 }
    ensures { result ≡ rest_good status zeros age }
{
    if zeros != 0 {
        return false;
    }
    if 3 < status {
        return false;
    }
    let oldest = (status + 2) % 4 * LARGEST_AGE;
    age <= oldest
}

// The entry that the fields of a record make. The rule of rest_good stands here by status, as an entry is made of each: with a call of it
// the search for the newest lost object took 1.6 times as long.
fn judge_entry(group: u64, parts: Parts) -> Result<Entry, Refusal>
    ensures { result ≡ entry_from group parts.object parts.status parts.zeros parts.age }
{
    let Parts {
        object,
        status,
        zeros,
        age,
    } = parts;
    if LARGEST < group {
        return Err(Refusal::BrokenEntry);
    }
    if LARGEST < object {
        return Err(Refusal::BrokenEntry);
    }
    if zeros != 0 {
        return Err(Refusal::BrokenEntry);
    }
    match status {
        0 => made(group, object, Status::Received, age),
        1 => made(group, object, Status::Late, age),
        2 => {
            if age == 0 {
                made(group, object, Status::NotReceived, age)
            } else {
                Err(Refusal::BrokenEntry)
            }
        }
        3 => made(group, object, Status::Partial, age),
        _ => Err(Refusal::BrokenEntry),
    }
}

// The entry of the given index in a report's entries. Its order against others is not judged.
pub fn read_entry(profile: u64, entries: &[u8], index: usize) -> Result<Entry, Refusal>
    ensures { result ≡ entry_by profile entries.now index }
{
    let profile = Profile::try_from(profile)?;
    entry_at(profile, entries, index)
}

// The same in a profile that is one of the two.
pub fn entry_at(profile: Profile, entries: &[u8], index: usize) -> Result<Entry, Refusal>
    ensures { result ≡ entry_at profile entries.now index }
{
    if records_in(profile, entries.len()) <= index {
        return Err(Refusal::Ends);
    }
    let size = record_size(profile);
    let at = index * size;
    let end = at + size;
    entry_of(profile, &entries[at..end])
}
