// The writer: what it judges, and the bytes.
ghost use Rattle.std.specs.Prelude.{◌≡◌, true, ◌++◌, ◌+◌, ◌≤◌, length};
ghost use Rattle.wire.specs.Bytes.{splice};
ghost use Rattle.wire.specs.Numbers.{encode_all, all_small};
ghost use Rattle.report.specs.Layout.{fixed_numbers};
ghost use Rattle.report.specs.Writer.{planned, write_answer, write_bytes, answer_by, bytes_by};

use crate::headers::numbers_of;
use crate::judging::{first_fault, looked_at};
use crate::layout::FIXED;
use crate::{Header, Written};
use entries::{MOST_ENTRIES, Profile, entries_fault, fitting, record_size, records_in};
use wire::Refusal;

// What the writer answers: it judges in the paper's order, then fits the records to the room.
fn plan(
    profile: Profile,
    numbers: &[u64],
    entries: &[u8],
    maximum: u64,
    room: usize,
) -> Result<Written, Refusal>
    requires { fixed_numbers ≤ length numbers.now }
    ensures { result ≡ planned profile numbers.now entries.now maximum room }
{
    let head = wire::length_of(numbers)?;
    first_fault(profile, numbers)?;
    if (MOST_ENTRIES as u64) < maximum {
        return Err(Refusal::BrokenCount);
    }
    entries_fault(profile, entries)?;
    if room <= head {
        return Err(Refusal::NoRoom);
    }
    let given = records_in(profile, entries.len());
    let kept = fitting(profile, given, maximum as usize, room - head);
    Ok(Written {
        next: head + wire::width(kept as u64) + record_size(profile) * kept,
        kept,
    })
}

// Writes the numbers, which fit: the plan has measured them, and `wire::put_numbers` would once more. wire has its own for that, which is
// private there, since no public function has a `requires`.
fn store_numbers(buf: &mut [u8], numbers: &[u64])
    requires { (all_small numbers.now ≡ true) × (length (encode_all numbers.now) ≤ length buf.old) }
    ensures { buf.new ≡ splice buf.old 0 (encode_all numbers.now) }
{
    let mut place: usize = 0;
    for v in numbers {
        let _ = wire::put_number(buf, place, *v);
        place += wire::width(*v);
    }
}

// Copies from over the whole of to, which is as long. It goes by place: where two lent parts may overlap for all that the compiler knows,
// `copy_from_slice` asks the host for memmove, and the archive asks for memcpy and memset alone.
fn copy(to: &mut [u8], from: &[u8])
    requires { length to.old ≡ length from.now }
    ensures { to.new ≡ from.now }
{
    for i in 0..from.len() {
        to[i] = from[i];
    }
}

// Writes the numbers, and from at on the records; both fit.
fn store(buf: &mut [u8], at: usize, numbers: &[u64], records: &[u8])
    requires { (all_small numbers.now ≡ true) × ((at ≡ length (encode_all numbers.now)) × (at + length records.now ≤ length buf.old)) }
    ensures { buf.new ≡ splice buf.old 0 (encode_all numbers.now ++ records.now) }
{
    store_numbers(buf, numbers);
    let end = at + records.len();
    copy(&mut buf[at..end], records);
}

// Writes a report of a profile: the header, which calls take by value, and the last of the records that fit, at most the maximum;
// nothing on a refusal.
fn write_as(
    profile: Profile,
    buf: &mut [u8],
    header: Header,
    entries: &[u8],
    maximum: u64,
) -> Result<Written, Refusal>
    ensures { (result ≡ write_answer profile header entries.now maximum (length buf.old)) × (buf.new ≡ write_bytes profile header entries.now maximum buf.old) }
{
    let metrics = header.metrics;
    let count = FIXED + 2 * looked_at(profile, metrics);
    let mut numbers = numbers_of(header);
    let Written { next, kept } = plan(profile, &numbers[..count], entries, maximum, buf.len())?;
    numbers[count] = kept as u64;
    let whole = count + 1;
    let bytes = record_size(profile) * kept;
    let at = next - bytes;
    let start = entries.len() - bytes;
    let end = start + bytes;
    store(buf, at, &numbers[..whole], &entries[start..end]);
    Ok(Written { next, kept })
}

// Writes a report of the profile asked for, or gives 18 before all other refusals.
pub fn write_report(
    profile: u64,
    buf: &mut [u8],
    header: Header,
    entries: &[u8],
    maximum: u64,
) -> Result<Written, Refusal>
    ensures { (result ≡ answer_by profile header entries.now maximum (length buf.old)) × (buf.new ≡ bytes_by profile header entries.now maximum buf.old) }
{
    let known = Profile::try_from(profile)?;
    write_as(known, buf, header, entries, maximum)
}
