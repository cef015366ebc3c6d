// A piece of the input: its records one after the other, and their lines.
ghost use Rattle.std.specs.Prelude.{◌≡◌, ◌+◌, ◌^◌, ◌<◌, ◌≤◌, length};
ghost use Rattle.wire.specs.Bytes.{splice};
ghost use Rattle.events.specs.Events.{record_call};
ghost use Rattle.events.specs.Lines.{line_of};
ghost use Rattle.events.specs.Replay.{longest_line, count_of, played, played_bytes};

use crate::Played;
use crate::calls::answer;
use crate::lines::put_line;
use receiver::Receiver;

// How many bytes a record has.
const RECORD: usize = 24;

// How many bytes a line takes at most: three numbers of twenty digits, and what ends each.
const LINE: usize = 63;

// The receiver after a record, and the place after its line.
#[derive(Clone, Copy)]
struct Stepped {
    next: Receiver,
    at: usize,
}

// Answers the record at the start of s, and writes its line at at.
fn step(s: &[u8], receiver: Receiver, index: u64, buf: &mut [u8], at: usize) -> Stepped
    requires { at + longest_line ≤ length buf.old }
    ensures { (result.next ≡ (record_call s.now receiver).next) × (result.at ≡ at + length (line_of index (record_call s.now receiver))) × (buf.new ≡ splice buf.old at (line_of index (record_call s.now receiver))) × (result.at ≤ at + longest_line) }
{
    let answered = answer(s, receiver);
    let next = answered.next;
    let at = put_line(buf, at, index, answered.result, next.cause).unwrap();
    Stepped { next, at }
}

// How many records of the bytes are answered: no more than there is room for lines and than there are indices.
fn count_of(bytes: usize, index: u64, room: usize) -> usize
    ensures { result ≡ count_of bytes index room }
{
    let records = bytes.div_ceil(RECORD);
    let indices = (u64::MAX - index) as usize;
    records.min((room / LINE).min(indices))
}

// Answers the records of s, the first of which has the index, and writes their lines at the start of buf.
pub fn piece(s: &[u8], receiver: Receiver, index: u64, buf: &mut [u8]) -> Played
    ensures { (result ≡ played s.now receiver index (length buf.old)) × (buf.new ≡ played_bytes s.now receiver index buf.old) × (result.length ≤ length buf.old) × (index + result.count < 2 ^ 64) }
{
    let count = count_of(s.len(), index, buf.len());
    let mut current = receiver;
    let mut at: usize = 0;
    for i in 0..count {
        let stepped = step(&s[RECORD * i..], current, index + i as u64, buf, at);
        current = stepped.next;
        at = stepped.at;
    }
    Played {
        count,
        length: at,
        next: current,
    }
}
