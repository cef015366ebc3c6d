// ACK: read, and its ranges written to a lent slice.
ghost use Rattle.std.specs.Prelude.{◌≡◌, false, Ok};
ghost use Rattle.frames.specs.Ack.{read_tail, read_ranges, after_header, read_ack, read_ack_as, check_ack};

use crate::ack_header::{read_header, read_header_at};
use crate::ack_ranges::{walk_ranges, write_ranges};
use crate::{Ack, Checked, Counts, Ending, Header};
use wire::{Number, Refusal};

// Reads what comes after the ranges: the three counts, or nothing.
fn read_tail(s: &[u8], at: usize, counted: bool) -> Result<Ending, Refusal>
    ensures { result ≡ read_tail counted s.now at }
{
    if !counted {
        return Ok(Ending {
            tail: None,
            used: at,
        });
    }
    let Ok(
        Number {
            value: ect0,
            next: at1,
            ..
        },
    ) = wire::read_number(s, at)
    else {
        return Err(Refusal::Ends);
    };
    let Ok(
        Number {
            value: ect1,
            next: at2,
            ..
        },
    ) = wire::read_number(s, at1)
    else {
        return Err(Refusal::Ends);
    };
    let Ok(
        Number {
            value: ce,
            next: used,
            ..
        },
    ) = wire::read_number(s, at2)
    else {
        return Err(Refusal::Ends);
    };
    Ok(Ending {
        tail: Some(Counts { ect0, ect1, ce }),
        used,
    })
}

// Checks the ACK frame that s starts with (2, 3, 14), and writes nothing.
// Its ranges are then read one by one, by read_range from at on.
pub fn check_ack(s: &[u8]) -> Result<Checked, Refusal>
    ensures { result ≡ check_ack s.now }
{
    let header = read_header(s)?;
    let mut nothing = [0u64; 0];
    let end = walk_ranges(&mut nothing, s, header.at, header.largest, header.count)?;
    let Ending { tail, used } = read_tail(s, end, header.counted)?;
    Ok(Checked {
        largest: header.largest,
        delay: header.delay,
        at: header.at,
        count: header.count,
        used,
        tail,
    })
}

// Reads the one range of a frame of type 02 that has no other: most frames are so, and need no walk and no place to keep ranges.
fn read_one(ranges: &mut [u64], s: &[u8], header: Header) -> Result<Ack, Refusal>
    ensures { (result ≡ (read_ranges s.now header.at header.largest header.delay 0 false ranges.old).answer) × (ranges.new ≡ (read_ranges s.now header.at header.largest header.delay 0 false ranges.old).slice) }
{
    let Ok(
        Number {
            value: len,
            next,
            ..
        },
    ) = wire::read_number(s, header.at)
    else {
        return Err(Refusal::Ends);
    };
    let largest = header.largest;
    if largest < len {
        return Err(Refusal::BelowZero);
    }
    if ranges.len() < 2 {
        return Err(Refusal::NoRoom);
    }
    ranges[0] = largest - len;
    ranges[1] = largest;
    Ok(Ack {
        largest,
        delay: header.delay,
        ranges: 1,
        used: next,
        tail: None,
    })
}

// Reads a frame's ranges and what comes after them. The walk keeps eight, which most frames have at most: they need no second walk.
fn read_several(ranges: &mut [u64], s: &[u8], header: Header) -> Result<Ack, Refusal>
    ensures { (result ≡ (after_header s.now (Ok header) ranges.old).answer) × (ranges.new ≡ (after_header s.now (Ok header) ranges.old).slice) }
{
    let mut few = [0u64; 16];
    let end = walk_ranges(&mut few, s, header.at, header.largest, header.count)?;
    let Ending { tail, used } = read_tail(s, end, header.counted)?;
    // The room is halved, since a count near 2^62 is not to be doubled.
    let pairs = (ranges.len() / 2) as u64;
    if pairs <= header.count {
        return Err(Refusal::NoRoom);
    }
    write_ranges(ranges, &few, s, header.at, header.largest, header.count);
    Ok(Ack {
        largest: header.largest,
        delay: header.delay,
        ranges: header.count + 1,
        used,
        tail,
    })
}

// Reads what a frame has after its header's numbers, and writes its ranges to the lent slice.
fn read_behind(ranges: &mut [u64], s: &[u8], header: Header) -> Result<Ack, Refusal>
    ensures { (result ≡ (after_header s.now (Ok header) ranges.old).answer)
        × (ranges.new ≡ (after_header s.now (Ok header) ranges.old).slice) }
{
    if header.is_alone() {
        return read_one(ranges, s, header);
    }
    read_several(ranges, s, header)
}

// Reads the ACK frame that s starts with, and writes its ranges to the lent slice: the whole frame is checked before the room is judged (9).
pub fn read_ack(s: &[u8], ranges: &mut [u64]) -> Result<Ack, Refusal>
    ensures { (result ≡ (read_ack s.now ranges.old).answer) × (ranges.new ≡ (read_ack s.now ranges.old).slice) }
{
    let header = read_header(s)?;
    read_behind(ranges, s, header)
}

// The same of an ACK frame whose type was read already: s starts with what comes after it.
pub fn read_ack_as(kind: u64, s: &[u8], ranges: &mut [u64]) -> Result<Ack, Refusal>
    ensures { (result ≡ (read_ack_as kind s.now ranges.old).answer)
        × (ranges.new ≡ (read_ack_as kind s.now ranges.old).slice) }
{
    let header = read_header_at(kind, s, 0)?;
    read_behind(ranges, s, header)
}
