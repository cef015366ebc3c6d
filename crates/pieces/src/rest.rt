// What no record takes: the start of the next record, the bytes after a bad one, and a byte too many. Then a whole part.
ghost use Rattle.std.specs.Prelude.{◌≡◌, List, ℕ, ◌≤◌, length, drop};
ghost use Rattle.entries.specs.Profiles.{record_size};
ghost use Rattle.uncut.specs.Cutting.{taking};
ghost use Rattle.pieces.specs.Record.{stand_in, state_in, moved_in};
ghost use Rattle.pieces.specs.Serving.{Sits, Served, Past, Begun, Short};

use crate::fields::{as_it_was, through_header};
use crate::records::{complete, in_place};
use crate::words::keep;
use crate::{COUNTING, Marks, RECORDS, REFUSED, WORDS, Walked};
use entries::{Profile, record_size};
use wire::Refusal;

// Records are coming: a byte behind the last one is 13, and the start of the next one is carried where the buffer has room for it.
fn begin_record(
    profile: Profile,
    from: Marks,
    state: &mut [u64; WORDS],
    part: &[u8],
    room: usize,
) -> Walked
    requires { (Sits profile (stand_in from state.old)) × ((from.stage ≡ 1) × (Short profile room (state_in (stand_in from state.old)) part.now)) }
    ensures { (((out : List ℕ) → length out ≡ room → Served profile (state_in (stand_in from state.old)) part.now out (moved_in result state.new) out) × (taking profile room (state_in (stand_in result.now state.new)) (drop result.taken part.now) ≡ 0)) × (result.records ≡ 0) }
{
    let left = from.left;
    let bytes = part.len();
    if bytes == 0 {
        return as_it_was(from);
    }
    let mut now = from;
    if left == 0 {
        now.stage = REFUSED;
        now.left = Refusal::BytesRemain.number();
        return Walked {
            now,
            taken: 1,
            records: 0,
        };
    }
    if room < record_size(profile) {
        return as_it_was(from);
    }
    let carried = from.carried;
    keep(state, carried, part);
    now.carried = carried + bytes;
    Walked {
        now,
        taken: bytes,
        records: 0,
    }
}

// A bad record came: its report's entry bytes are counted on. Of the words only the contract speaks.
fn count_on(profile: Profile, from: Marks, state: &[u64; WORDS], part: &[u8]) -> Walked
    requires { (Sits profile (stand_in from state.now)) × (from.stage ≡ 2) }
    ensures { (((out : List ℕ) → Served profile (state_in (stand_in from state.now)) part.now out (moved_in result state.now) out) × ((room : ℕ) → taking profile room (state_in (stand_in result.now state.now)) (drop result.taken part.now) ≡ 0)) × (result.records ≡ 0) }
{
    let left = from.left;
    let bytes = (left as usize).min(part.len());
    let mut now = from;
    now.left = left - bytes as u64;
    Walked {
        now,
        taken: bytes,
        records: 0,
    }
}

// The last bytes that a call takes.
fn finish(
    profile: Profile,
    from: Marks,
    state: &mut [u64; WORDS],
    part: &[u8],
    room: usize,
) -> Walked
    requires { (Sits profile (stand_in from state.old)) × (Short profile room (state_in (stand_in from state.old)) part.now) }
    ensures { (((out : List ℕ) → length out ≡ room → Served profile (state_in (stand_in from state.old)) part.now out (moved_in result state.new) out) × (taking profile room (state_in (stand_in result.now state.new)) (drop result.taken part.now) ≡ 0)) × (result.records ≡ 0) }
{
    let stage = from.stage;
    match stage {
        RECORDS => begin_record(profile, from, state, part, room),
        COUNTING => count_on(profile, from, state, part),
        _ => as_it_was(from),
    }
}

// The records that lie whole in the part, then the last bytes.
fn finish_rows(
    profile: Profile,
    from: Marks,
    state: &mut [u64; WORDS],
    part: &[u8],
    out: &mut [u8],
) -> Walked
    requires { (Sits profile (stand_in from state.old)) × (Begun profile (state_in (stand_in from state.old)) part.now) }
    ensures { (Served profile (state_in (stand_in from state.old)) part.now out.old (moved_in result state.new) out.new) × (result.taken ≡ taking profile (length out.old) (state_in (stand_in from state.old)) part.now) }
{
    let rows = in_place(profile, from, state, part, out);
    let at = rows.taken;
    let records = rows.records;
    let short = rows.now;
    let room = out.len() - record_size(profile) * records;
    let last = finish(profile, short, state, &part[at..], room);
    let now = last.now;
    Walked {
        now,
        taken: at + last.taken,
        records,
    }
}

// The record that is carried, then those behind it.
fn through_rows(
    profile: Profile,
    from: Marks,
    state: &mut [u64; WORDS],
    part: &[u8],
    out: &mut [u8],
) -> Walked
    requires { (Sits profile (stand_in from state.old)) × ((Past (state_in (stand_in from state.old)) part.now) × (record_size profile ≤ length out.old)) }
    ensures { (Served profile (state_in (stand_in from state.old)) part.now out.old (moved_in result state.new) out.new) × (result.taken ≡ taking profile (length out.old) (state_in (stand_in from state.old)) part.now) }
{
    let first = complete(profile, from, state, part, out);
    let at = first.taken;
    let records = first.records;
    let begun = first.now;
    let filled = record_size(profile) * records;
    let rest = finish_rows(profile, begun, state, &part[at..], &mut out[filled..]);
    let now = rest.now;
    Walked {
        now,
        taken: at + rest.taken,
        records: records + rest.records,
    }
}

// A whole part, as far as the buffer has room for its records: the header's numbers, then the records.
pub(crate) fn taken_in(
    profile: Profile,
    from: Marks,
    state: &mut [u64; WORDS],
    part: &[u8],
    out: &mut [u8],
) -> Walked
    requires { (Sits profile (stand_in from state.old)) × (record_size profile ≤ length out.old) }
    ensures { (Served profile (state_in (stand_in from state.old)) part.now out.old (moved_in result state.new) out.new) × (result.taken ≡ taking profile (length out.old) (state_in (stand_in from state.old)) part.now) }
{
    let head = through_header(profile, from, state, part);
    let at = head.taken;
    let past = head.now;
    let rest = through_rows(profile, past, state, &part[at..], out);
    let now = rest.now;
    let records = rest.records;
    Walked {
        now,
        taken: at + rest.taken,
        records,
    }
}
