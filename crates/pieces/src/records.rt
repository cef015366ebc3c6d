// The records: the one that is carried is made whole, then those that lie whole in the part are judged where they stand.
ghost use Rattle.std.specs.Prelude.{◌≡◌, ◌-◌, ◌*◌, ◌≤◌, ◌<◌, length, drop};
ghost use Rattle.entries.specs.Profiles.{record_size};
ghost use Rattle.pieces.specs.Reading.{counted_at, completes_of, row_here};
ghost use Rattle.pieces.specs.Record.{stand_in, state_in, moved_in};
ghost use Rattle.pieces.specs.Serving.{Sits, Served, Past, Begun, Short};

use crate::fields::{as_it_was, joined};
use crate::words::held_in;
use crate::{COUNTING, Marks, RECORDS, WORDS, Walked};
use entries::{Profile, good_run, record_size, records_in};

// Copies from over the whole of to, which is as long. It goes by place: where two lent parts may overlap for all that the compiler knows,
// `copy_from_slice` asks the host for memmove, and the archive asks for memcpy and memset alone.
fn copy(to: &mut [u8], from: &[u8])
    requires { length to.old ≡ length from.now }
    ensures { to.new ≡ from.now }
{
    for i in 0..from.len() {
        to[i] = from[i];
    }
}

// A bad record came: the bytes of those still to come are counted on.
fn after_bad(profile: Profile, from: Marks, left: u64, taken: usize, records: usize) -> Walked
    requires { left ≤ 200 }
    ensures { result ≡ counted_at from (record_size profile * left) taken records }
{
    let mut now = from;
    now.stage = COUNTING;
    now.left = (record_size(profile) as u64) * left;
    Walked {
        now,
        taken,
        records,
    }
}

// Whether the bytes at hand make the record that is carried whole.
fn completes(stage: u64, left: u64, carried: usize, size: usize, bytes: usize) -> bool
    requires { (carried ≤ 24) × (bytes < 9223372036854775808) }
    ensures { result ≡ completes_of stage left carried size bytes }
{
    stage == RECORDS && left != 0 && carried != 0 && size <= carried + bytes
}

// Makes the record that is carried whole, if the part has the bytes.
pub(crate) fn complete(
    profile: Profile,
    from: Marks,
    state: &[u64; WORDS],
    part: &[u8],
    out: &mut [u8],
) -> Walked
    requires { (Sits profile (stand_in from state.now)) × ((Past (state_in (stand_in from state.now)) part.now) × (record_size profile ≤ length out.old)) }
    ensures { (Served profile (state_in (stand_in from state.now)) part.now out.old (moved_in result state.now) out.new) × (Begun profile (state_in (stand_in result.now state.now)) (drop result.taken part.now)) }
{
    let stage = from.stage;
    let left = from.left;
    let carried = from.carried;
    let size = record_size(profile);
    if !completes(stage, left, carried, size, part.len()) {
        return as_it_was(from);
    }
    let need = size - carried;
    let held = held_in(state, carried);
    let record = joined(held, carried, &part[..need]);
    let run = good_run(profile, from.last, from.above, &record[..size]);
    if run.good == 0 {
        return after_bad(profile, from, left - 1, need, 0);
    }
    out[..size].copy_from_slice(&record[..size]);
    let mut now = from;
    now.left = left - 1;
    now.last = run.last;
    now.above = run.above;
    now.carried = 0;
    Walked {
        now,
        taken: need,
        records: 1,
    }
}

// Whether records may be read where they stand.
fn row_here(stage: u64, carried: usize) -> bool
    ensures { result ≡ row_here stage carried }
{
    stage == RECORDS && carried == 0
}

// Takes the records that lie whole in the part, as many as are to come and fit the buffer, up to the first bad one.
// Of the words only the contract speaks.
pub(crate) fn in_place(
    profile: Profile,
    from: Marks,
    state: &[u64; WORDS],
    part: &[u8],
    out: &mut [u8],
) -> Walked
    requires { (Sits profile (stand_in from state.now)) × (Begun profile (state_in (stand_in from state.now)) part.now) }
    ensures { (Served profile (state_in (stand_in from state.now)) part.now out.old (moved_in result state.now) out.new) × (Short profile (length out.old - record_size profile * result.records) (state_in (stand_in result.now state.now)) (drop result.taken part.now)) }
{
    let stage = from.stage;
    let carried = from.carried;
    if !row_here(stage, carried) {
        return as_it_was(from);
    }
    let left = from.left;
    let size = record_size(profile);
    let room = records_in(profile, out.len());
    let n = (left as usize).min(records_in(profile, part.len()).min(room));
    let bytes = size * n;
    let run = good_run(profile, from.last, from.above, &part[..bytes]);
    let good = run.good;
    let end = size * good;
    copy(&mut out[..end], &part[..end]);
    if good < n {
        return after_bad(profile, from, left - 1 - good as u64, end + size, good);
    }
    let mut now = from;
    now.left = left - good as u64;
    now.last = run.last;
    now.above = run.above;
    Walked {
        now,
        taken: end,
        records: good,
    }
}
