// The ACK frame of what was received: as many newest ranges of the window as fit the lent buffer, and its counts (02, No. 2).
// Carries of "The receiver record" of document 01 the frame that write emits (RFC 9000 section 19.3).
// The public function takes any record, any time and any bytes.

#![tactic(auto)]

ghost use Rattle.std.specs.Prelude.{◌≡◌, true, false, ◌+◌, ◌-◌, ◌^◌, ◌≤◌, ◌<◌, length};
ghost use Rattle.wire.specs.Numbers.{limit, encode_all, all_small};
ghost use Rattle.frames.specs.Ack.{type_of, counts_of};
ghost use Rattle.wire.specs.Bytes.{splice};
ghost use Rattle.seen.specs.Numbers.{small};
ghost use Rattle.seen.specs.Received.{seen_consistent, reported};
ghost use Rattle.ack.specs.Ack.{number_of_ranges, body, ranges_kept, marks_answer, marks_bytes, ack_answer, ack_bytes};

use edges::first_size;
use frames::Counts;
use seen::{Micros, Seen, numbers};
use walk::{Told, first_room, put_body};
use wire::Refusal;

mod edges;
mod walk;

// The type of a frame with that tail (RFC 9000 19.3).
pub(crate) fn type_of(tail: Option<Counts>) -> u64
    ensures { result ≡ type_of tail }
{
    match tail {
        None => 2,
        Some(_) => 3,
    }
}

// Whether a tail's counts obey 5.
fn counts_obey(tail: Option<Counts>) -> bool
    ensures { result ≡ all_small (counts_of tail) }
{
    match tail {
        None => true,
        Some(Counts { ect0, ect1, ce }) => {
            if !numbers::is_small(ect0) {
                return false;
            }
            if !numbers::is_small(ect1) {
                return false;
            }
            numbers::is_small(ce)
        }
    }
}

// The room of which a tail's counts leave so much for what comes before them.
fn room_before(tail: Option<Counts>, room: usize) -> usize
    requires { all_small (counts_of tail) ≡ true }
    ensures { result ≡ room - length (encode_all (counts_of tail)) }
{
    match tail {
        None => room,
        Some(Counts { ect0, ect1, ce }) => {
            let bytes = wire::width(ect0) + wire::width(ect1) + wire::width(ce);
            room.saturating_sub(bytes)
        }
    }
}

// Writes a tail's counts at a place, and answers the place after them.
fn put_counts(tail: Option<Counts>, at: usize, buf: &mut [u8]) -> usize
    requires { (all_small (counts_of tail) ≡ true) × (at + length (encode_all (counts_of tail)) ≤ length buf.old) }
    ensures { (result ≡ at + length (encode_all (counts_of tail))) × (buf.new ≡ splice buf.old at (encode_all (counts_of tail))) }
{
    match tail {
        None => at,
        Some(Counts { ect0, ect1, ce }) => {
            // ECT(0), ECT(1), CE (RFC 9000 19.3.2).
            let counts = [ect0, ect1, ce];
            wire::put_numbers(buf, at, &counts).unwrap()
        }
    }
}

// Writes the ACK frame of what is reported, as many newest ranges as fit; 9 where not even the first does.
// The window's words are lent, and their marks below the floor are passed over: a window that goes by value is copied each time.
fn write_marks(
    seen: Seen,
    time: Micros,
    tail: Option<Counts>,
    buf: &mut [u8],
) -> Result<usize, Refusal>
    requires { (seen_consistent seen ≡ true) × (0 < seen.end) × (small time.0 ≡ true) × (all_small (counts_of tail) ≡ true) }
    ensures { (result ≡ marks_answer (reported seen) time tail buf.old) × (buf.new ≡ marks_bytes (reported seen) time tail buf.old) }
{
    let window = seen.window;
    let delay = numbers::minus_or_zero(time.0, seen.arrived.0) / 8;
    let least = numbers::minus_or_zero(window::PLACES, seen.end - seen.floor());
    let first = first_size(&window.words, least);
    let room = room_before(tail, buf.len());
    if room < first_room(seen.end - 1, first, delay) {
        return Err(Refusal::NoRoom);
    }
    let told = Told {
        end: seen.end,
        least,
        delay,
        room,
    };
    let end = put_body(&window.words, told, tail, first, buf);
    Ok(put_counts(tail, end, buf))
}

// Writes an ACK frame with that tail at the start of buf, and answers its length. Due or not, it is allowed once something was received.
pub fn write_ack(
    seen: Seen,
    time: Micros,
    tail: Option<Counts>,
    buf: &mut [u8],
) -> Result<usize, Refusal>
    ensures { (result ≡ ack_answer seen time tail buf.old) × (buf.new ≡ ack_bytes seen time tail buf.old) }
{
    if !seen.consistent() {
        return Err(Refusal::Inconsistent);
    }
    if !numbers::is_small(time.0) {
        return Err(Refusal::TooLarge);
    }
    if !counts_obey(tail) {
        return Err(Refusal::TooLarge);
    }
    if seen.end == 0 {
        return Err(Refusal::NothingReceived);
    }
    write_marks(seen, time, tail, buf)
}
