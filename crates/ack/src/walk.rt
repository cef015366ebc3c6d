// The ranges of an ACK frame, written in one walk from the newest down: each is stored as it is found, and the range count last.
ghost use Rattle.std.specs.Prelude.{◌≡◌, true, false, ◌⊎◌, [], ◌∷◌, ◌+◌, ◌-◌, ◌*◌, ◌≤◌, ◌<◌, length, take};
ghost use Rattle.wire.specs.Numbers.{limit, width_of, encode, encode_all};
ghost use Rattle.wire.specs.Bytes.{splice};
ghost use Rattle.frames.specs.Ack.{gaps_from};
ghost use Rattle.window.specs.Window.{places, value_of, run_below};
ghost use Rattle.seen.specs.Received.{seen_consistent};
ghost use Rattle.ack.specs.Ack.{number_at, ranges_below};
ghost use Rattle.ack.specs.Walk.{marks_told, kept_told, room_told, body_told};

use crate::edges::{others_in, range_at};
use crate::type_of;
use frames::Counts;

// How many bytes a gap or a length takes: it is below 1,024, the places of a window.
fn short_width(v: u64) -> usize
    requires { v < 1024 }
    ensures { result ≡ width_of v }
{
    if v < 64 { 1 } else { 2 }
}

// Writes such a number at a place where there is room, and answers the place after it.
fn put_short(buf: &mut [u8], at: usize, v: u64) -> usize
    requires { (v < 1024) × (at + width_of v ≤ length buf.old) }
    ensures { (result ≡ at + width_of v) × (buf.new ≡ splice buf.old at (encode v)) }
{
    if v < 64 {
        buf[at] = v as u8;
        return at + 1;
    }
    // The code of two bytes above the value's high bits.
    buf[at] = (64 + v / 256) as u8;
    buf[at + 1] = (v % 256) as u8;
    at + 2
}

// What a frame tells besides its ranges, and its room: L's end, the place from which on marks count, the delay, and how many bytes there are before the counts.
#[derive(Clone, Copy)]
pub(crate) struct Told {
    pub end: u64,
    pub least: u64,
    pub delay: u64,
    pub room: usize,
}

// What a walk stored: so many ranges after the first, up to the place `end`. Where it is over, one more fits, but its range count takes more bytes.
#[derive(Clone, Copy)]
pub(crate) struct Walked {
    pub count: u64,
    pub end: usize,
    pub over: bool,
}

// Stores the ranges below place `low`, where the first one ends, from place `from` on while they fit the room; `most` is the largest range count that its field holds.
// No mark below place `least` counts.
pub(crate) fn put_ranges(
    words: &[u64; 16],
    told: Told,
    low: u64,
    most: u64,
    from: usize,
    buf: &mut [u8],
) -> Walked
    requires { (seen_consistent (marks_told words.now told) ≡ true) × (0 < told.end) × (told.delay ≤ limit) × (told.room ≤ length buf.old) × (low ≡ places - run_below true places (value_of (marks_told words.now told).window))
        × (from + 1 ≡ room_told words.now told 1 + width_of most) × (from ≤ told.room)
        × ((most ≡ 63) ⊎ ((most ≡ 16383) × (64 < kept_told words.now told))) }
    ensures { (result.end ≡ from + length (encode_all (gaps_from (number_at told.end low) (take (2 * result.count) (ranges_below places (marks_told words.now told) low)))))
        × (buf.new ≡ splice buf.old from (encode_all (gaps_from (number_at told.end low) (take (2 * result.count) (ranges_below places (marks_told words.now told) low)))))
        × (result.end ≤ told.room) × (result.count < kept_told words.now told) × (result.count ≤ most)
        × (result.over ≡ false → result.count + 1 ≡ kept_told words.now told)
        × (result.over ≡ true → (most ≡ 63) × (64 < kept_told words.now told) × (result.end ≤ room_told words.now told (kept_told words.now told))) }
{
    let mut at = from;
    let mut place = low;
    let mut count: u64 = 0;
    // The word that holds the place, and its marks below it.
    let mut index = (low / 64) as usize;
    let word = others_in(words, index, false);
    let mut left = word % (1 << (low % 64));
    while told.least < place {
        let range = range_at(words, told.least, place, index, left);
        if range.size == 0 {
            break;
        }
        // Gap and length, each one less than what it counts.
        let gap = range.missing - 1;
        let more = range.size - 1;
        let after = at + short_width(gap) + short_width(more);
        if told.room < after {
            break;
        }
        if count == most {
            let over = after < told.room;
            return Walked {
                count,
                end: at,
                over,
            };
        }
        let next = put_short(buf, at, gap);
        at = put_short(buf, next, more);
        place = place - range.missing - range.size;
        index = range.index;
        left = range.left;
        count += 1;
    }
    let over = false;
    Walked {
        count,
        end: at,
        over,
    }
}

// How much room a frame with the first range alone takes, without counts: the type and the range count take a byte each.
pub(crate) fn first_room(largest: u64, first: u64, delay: u64) -> usize
    requires { 0 < first }
    ensures { result ≡ 2 + width_of largest + width_of delay + width_of (first - 1) }
{
    2 + wire::width(largest) + wire::width(delay) + wire::width(first - 1)
}

// Writes type, largest and delay, and answers the place after them.
fn put_head(kind: u64, largest: u64, delay: u64, buf: &mut [u8]) -> usize
    requires { (kind < 64) × (largest ≤ limit) × (delay ≤ limit) × (length (encode_all (kind ∷ largest ∷ delay ∷ [])) ≤ length buf.old) }
    ensures { (result ≡ length (encode_all (kind ∷ largest ∷ delay ∷ []))) × (buf.new ≡ splice buf.old 0 (encode_all (kind ∷ largest ∷ delay ∷ []))) }
{
    let at = put_short(buf, 0, kind);
    let _ = wire::put_number(buf, at, largest);
    let next = at + wire::width(largest);
    let _ = wire::put_number(buf, next, delay);
    next + wire::width(delay)
}

// Writes the frame up to its counts, the range count in a field that holds up to `most` (RFC 9000 19.3).
fn put_frame(
    words: &[u64; 16],
    told: Told,
    tail: Option<Counts>,
    first: u64,
    most: u64,
    buf: &mut [u8],
) -> Walked
    requires { (seen_consistent (marks_told words.now told) ≡ true) × (0 < told.end) × (told.delay ≤ limit) × (told.room ≤ length buf.old) × (first ≡ run_below true places (value_of (marks_told words.now told).window))
        × (room_told words.now told 1 ≤ told.room)
        × ((most ≡ 63) ⊎ ((most ≡ 16383) × (64 < kept_told words.now told))) }
    ensures { (result.over ≡ false → (result.end ≡ length (body_told words.now told tail))
        × (buf.new ≡ splice buf.old 0 (body_told words.now told tail)))
        × (result.over ≡ true → (most ≡ 63) × (64 < kept_told words.now told)
        × (splice buf.new 0 (body_told words.now told tail) ≡ splice buf.old 0 (body_told words.now told tail))) }
{
    let count_at = put_head(type_of(tail), told.end - 1, told.delay, buf);
    let from = put_short(buf, count_at + wire::width(most), first - 1);
    let walked = put_ranges(words, told, window::PLACES - first, most, from, buf);
    if walked.over {
        return walked;
    }
    put_short(buf, count_at, walked.count);
    walked
}

// Writes the frame up to its counts with as many newest ranges as fit the room, and answers the place after them.
// Up to 64 ranges have a range count of one byte. Where more fit, all is written once more with one of two.
pub(crate) fn put_body(
    words: &[u64; 16],
    told: Told,
    tail: Option<Counts>,
    first: u64,
    buf: &mut [u8],
) -> usize
    requires { (seen_consistent (marks_told words.now told) ≡ true) × (0 < told.end) × (told.delay ≤ limit) × (told.room ≤ length buf.old) × (first ≡ run_below true places (value_of (marks_told words.now told).window))
        × (room_told words.now told 1 ≤ told.room) }
    ensures { (result ≡ length (body_told words.now told tail))
        × (buf.new ≡ splice buf.old 0 (body_told words.now told tail)) }
{
    let short = put_frame(words, told, tail, first, 63, buf);
    if short.over {
        let wide = put_frame(words, told, tail, first, 16383, buf);
        return wide.end;
    }
    short.end
}
