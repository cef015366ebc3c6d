// The entries, one record for each object with a status.
ghost use Rattle.std.specs.Prelude.{◌≡◌, ◌+◌, ◌*◌, ◌<◌, ◌≤◌, length};
ghost use Rattle.wire.specs.Bytes.{splice};
ghost use Rattle.entries.specs.Entries.{status_number};
ghost use Rattle.tracker.specs.Record.{first_of, known};
ghost use Rattle.tracker.specs.Status.{age_of, entry_bytes, entries_from};
ghost use Rattle.tracker.specs.Counting.{statuses_by};

use crate::counting::status;
use crate::{AT_FIRST, AT_OBJECTS, OBJECTS, TIMES, WORDS};
use entries::{RECORD, Status};

// The largest four-byte number.
const OLDEST: u64 = 4294967295;

// The age of an entry: 0 where the object is not received, or the clock went back.
fn age(status: Status, time: u64, since: u64) -> u64
    ensures { (result ≡ age_of (status_number status) time since) × (result ≤ 4294967295) }
{
    match status {
        Status::NotReceived => 0,
        _ => time.saturating_sub(since).min(OLDEST),
    }
}

// Writes one entry record, which fits, so that no field is refused. The status and the three zero bytes are written as one field of four bytes.
fn put_entry(buf: &mut [u8], at: usize, object: u64, status: Status, age: u64)
    requires { (at + 16 ≤ length buf.old) × (age ≤ 4294967295) }
    ensures { buf.new ≡ splice buf.old at (entry_bytes object (status_number status) age) }
{
    let _ = wire::put_fixed8(buf, at, object);
    let _ = wire::put_fixed4(buf, at + 8, (status.number() * 16777216) as u32);
    let _ = wire::put_fixed4(buf, at + 12, age as u32);
}

// Writes the entries of all objects with a status, by the end of those lost; they fit.
pub(crate) fn put_entries(buf: &mut [u8], tracker: &[u64; WORDS], time: u64, end: u64)
    requires { (first_of tracker.now < 4611686018427387904) × (length (entries_from (statuses_by end tracker.now) (known tracker.now) time 256 0) ≤ length buf.old) }
    ensures { buf.new ≡ splice buf.old 0 (entries_from (statuses_by end tracker.now) (known tracker.now) time 256 0) }
{
    let first = tracker[AT_FIRST];
    let mut at: usize = 0;
    for place in 0..OBJECTS {
        let word = tracker[AT_OBJECTS + place];
        if let Some(status) = status(word, place, end) {
            let age = age(status, time, word % TIMES);
            put_entry(buf, at, first + place as u64, status, age);
            at += RECORD;
        }
    }
}
