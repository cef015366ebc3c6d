// Records in a row.
ghost use Rattle.std.specs.Prelude.{◌≡◌, suc, ◌≤◌};
ghost use Rattle.wire.specs.Numbers.{limit};
ghost use Rattle.entries.specs.Entries.{entry_behind, entries_good, entries_fault};
ghost use Rattle.entries.specs.Runs.{run_to, run_of};
ghost use Rattle.entries.specs.Steps.{inside, floor_of, next_of};

use crate::one::{parts_in, rest_good};
use crate::{GROUP, MOST_GIVEN, Profile, RECORD, Run, record_size, records_in};
use wire::{LARGEST, Refusal};

// Whether a number is at or above a floor and none too large. One test: a number below the floor wraps past all that are left.
fn within(floor: u64, number: u64) -> bool
    requires { floor ≤ suc limit }
    ensures { result ≡ inside floor number }
{
    std::num::wrapping_sub_u64(number, floor) < LARGEST + 1 - floor
}

// Where the object numbers of a record start: behind the last one in the same group, from 0 in another.
fn floor_of(last: u64, above: u64, group: u64) -> u64
    ensures { result ≡ floor_of last above group }
{
    if group == last { above } else { 0 }
}

// What the 16 bytes behind a group leave to the next record, where they obey their rule and the object number is at or above the floor.
fn next_from(floor: u64, bytes: &[u8]) -> Option<u64>
    requires { floor ≤ suc limit }
    ensures { result ≡ next_of floor (entry_behind 0 bytes.now) }
{
    let parts = parts_in(bytes)?;
    if !within(floor, parts.object) {
        return None;
    }
    if !rest_good(parts.status, parts.zeros, parts.age) {
        return None;
    }
    Some(parts.object + 1)
}

// How many records of profile 1 in a row obey their rule and rise. Each profile has a loop of its own, so that neither asks for the other's fields.
fn objects_run(above: u64, entries: &[u8]) -> Run
    requires { above ≤ suc limit }
    ensures { result ≡ run_of Profile.One 0 above entries.now }
{
    let mut good: usize = 0;
    // One past the object number of the record before.
    let mut floor = above;
    for record in entries.chunks_exact(RECORD) {
        let Some(next) = next_from(floor, record) else {
            return run_to(good, 0, floor);
        };
        floor = next;
        good += 1;
    }
    run_to(good, 0, floor)
}

// How many records of profile 2 in a row obey their rule and rise by group, then object.
// It goes by place, which was tried beside exact chunks: over these a report of 200 entries takes 980 ns to read, and not 854.
fn groups_run(last: u64, above: u64, entries: &[u8]) -> Run
    requires { (last ≤ limit) × (above ≤ suc limit) }
    ensures { result ≡ run_of Profile.Two last above entries.now }
{
    let size = GROUP + RECORD;
    let n = entries.len() / size;
    // The group of the record before, and one past its object number.
    let mut before = last;
    let mut past = above;
    for good in 0..n {
        let at = good * size;
        let end = at + size;
        let record = &entries[at..end];
        let Ok(field) = wire::read_fixed8(record, 0) else {
            return run_to(good, before, past);
        };
        let group = field.value;
        if !within(before, group) {
            return run_to(good, before, past);
        }
        let floor = floor_of(before, past, group);
        let Some(next) = next_from(floor, &record[GROUP..]) else {
            return run_to(good, before, past);
        };
        before = group;
        past = next;
    }
    run_to(n, before, past)
}

// So many records are good, and this is what the last of them leaves for the next.
fn run_to(good: usize, last: u64, above: u64) -> Run
    ensures { result ≡ run_to good last above }
{
    Run { good, last, above }
}

// How many records are good one after the other, the first after a record of the group last, one past whose object number is above.
pub fn good_run(profile: Profile, last: u64, above: u64, entries: &[u8]) -> Run
    ensures { result ≡ run_of profile last above entries.now }
{
    let run = run_from(profile, last, above.min(LARGEST + 1), entries);
    if run.good == 0 {
        return run_to(0, last, above);
    }
    run
}

// The same where no object number above the largest is asked for.
fn run_from(profile: Profile, last: u64, above: u64, entries: &[u8]) -> Run
    requires { above ≤ suc limit }
    ensures { result ≡ run_of profile last above entries.now }
{
    match profile {
        Profile::One => {
            if last != 0 {
                return run_to(0, last, above);
            }
            objects_run(above, entries)
        }
        Profile::Two => {
            if LARGEST < last {
                return run_to(0, last, above);
            }
            groups_run(last, above, entries)
        }
    }
}

// Whether every record obeys its rule and they rise by group, then object.
pub fn entries_good(profile: Profile, entries: &[u8]) -> bool
    ensures { result ≡ entries_good profile entries.now }
{
    let run = good_run(profile, 0, 0, entries);
    run.good == records_in(profile, entries.len())
}

// Whether the records handed to a writer are such, or the refusal that they bring.
pub fn entries_fault(profile: Profile, entries: &[u8]) -> Result<(), Refusal>
    ensures { result ≡ entries_fault profile entries.now }
{
    let n = records_in(profile, entries.len());
    if n * record_size(profile) != entries.len() {
        return Err(Refusal::BrokenEntry);
    }
    if MOST_GIVEN < n {
        return Err(Refusal::BrokenCount);
    }
    if !entries_good(profile, entries) {
        return Err(Refusal::BrokenEntry);
    }
    Ok(())
}
