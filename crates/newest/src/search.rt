// The search over the records, from the last one down.
ghost use Rattle.std.specs.Prelude.{◌≡◌, suc};
ghost use Rattle.entries.specs.Entries.{at_or_above};
ghost use Rattle.newest.specs.Search.{is_lost, newest_in};

use crate::Lost;
use entries::{Profile, Status, entry_at};
use wire::{LARGEST, Refusal};

// Whether a record comes by group, then object, below the one after it, which has group top and object number next.
fn below(group: u64, object: u64, top: u64, next: u64) -> bool
    ensures { result ≡ at_or_above group (suc object) top next }
{
    if top == group {
        object < next
    } else {
        group < top
    }
}

// Whether the object was not received.
fn is_lost(status: Status) -> bool
    ensures { result ≡ is_lost status }
{
    matches!(status, Status::NotReceived)
}

// The last of so many records that is marked not received. Each is judged before its status is asked for; those before it are not read.
pub(crate) fn search(
    profile: Profile,
    records: &[u8],
    count: usize,
) -> Result<Option<Lost>, Refusal>
    ensures { result ≡ newest_in profile records.now count }
{
    // The group and the object number of the record after; past all where none comes after.
    let mut top = LARGEST + 1;
    let mut next: u64 = 0;
    for index in (0..count).rev() {
        let Ok(entry) = entry_at(profile, records, index) else {
            return Err(Refusal::BrokenEntry);
        };
        if !below(entry.group, entry.object, top, next) {
            return Err(Refusal::BrokenEntry);
        }
        if is_lost(entry.status) {
            return Ok(Some(Lost {
                group: entry.group,
                object: entry.object,
            }));
        }
        top = entry.group;
        next = entry.object;
    }
    Ok(None)
}
