// Reading event records and printing their lines: the two ends of the replay program.
// Carries "Standard input holds event records" of document 01; the records' answers and lines are the crate `events`.

#![tactic(auto)]

ghost use Rattle.std.specs.Prelude.{◌≡◌, ◌-◌, ◌≤◌, ◌<◌, length, take, drop};
ghost use Rattle.play.specs.Reads.{ready};

use receiver::Receiver;
use std::io::Read;

// How many bytes are read at most at a time: 2,730 records.
const PIECE: usize = 65520;

// Room for the longest line, 63 bytes, of each record of a piece.
const ROOM: usize = 171990;

// How many bytes a record has.
const RECORD: usize = 24;

// Where the program stands between two reads.
#[derive(Clone, Copy)]
struct Place {
    receiver: Receiver,
    // The index of the next record.
    index: u64,
    // How many bytes of a record that has not wholly come stand at the start of the input buffer.
    kept: usize,
    // Whether there is more to read.
    more: bool,
}

// Moves the bytes from from up to to to the start.
fn keep(buf: &mut [u8], from: usize, to: usize)
    requires { (from ≤ to) × (to ≤ length buf.old) }
    ensures { (take (to - from) buf.new ≡ take (to - from) (drop from buf.old)) × (drop (to - from) buf.new ≡ drop (to - from) buf.old) }
{
    buf.copy_within(from..to, 0);
}

// How many of the bytes that have come are answered: those of whole records, and at the end of the input all.
fn ready(filled: usize, ended: bool) -> usize
    ensures { (result ≡ ready ended filled) × (result ≤ filled) × (filled - result < 24) }
{
    if ended {
        return filled;
    }
    filled - filled % RECORD
}

// A line on standard error. Where it cannot be written either, nobody is left to tell.
fn complain<P: Eprint>(rt: &P, line: &str) {
    let _ = rt.eprintln(line);
}

// Answers what is ready, prints the lines, and keeps the rest.
fn answer<P: Print + Eprint>(
    rt: &P,
    place: Place,
    input: &mut [u8],
    filled: usize,
    ended: bool,
    output: &mut [u8],
) -> Place
    requires { filled ≤ length input.old }
    ensures { result.kept < 24 }
{
    let before = place.receiver;
    let end = ready(filled, ended);
    let played = events::piece(&input[..end], before, place.index, output);
    let length = played.length;
    let printed = rt.write_all(&output[..length]).is_ok();
    if !printed {
        complain(
            rt,
            "replay: standard output cannot be written, so lines are missing",
        );
    }
    keep(input, end, filled);
    let receiver = played.next;
    let index = place.index + played.count as u64;
    Place {
        receiver,
        index,
        kept: filled - end,
        more: printed && !ended,
    }
}

// Reads what has come, behind what was kept, and answers it.
fn turn<R: Read, P: Print + Eprint>(
    reader: &mut R,
    rt: &P,
    place: Place,
    input: &mut [u8],
    output: &mut [u8],
) -> Place
    requires { (place.kept < 24) × (24 ≤ length input.old) }
    ensures { result.kept < 24 }
{
    let kept = place.kept;
    let Ok(count) = reader.read(&mut input[kept..]) else {
        complain(
            rt,
            "replay: standard input cannot be read, so the lines end early",
        );
        let receiver = place.receiver;
        return Place {
            receiver,
            index: place.index,
            kept,
            more: false,
        };
    };
    answer(rt, place, input, kept + count, count == 0, output)
}

// Plays what the reader gives to its end: the lines go to standard output.
// A proved loop has to end, and nothing says that an input does: it counts its turns down from a number that no run uses up.
pub fn play<R: Read, P: Print + Eprint>(reader: &mut R, rt: &P) {
    let mut input = [0u8; PIECE];
    let mut output = [0u8; ROOM];
    let mut place = Place {
        receiver: events::opening(),
        index: 0,
        kept: 0,
        more: true,
    };
    let mut turns = u64::MAX;
    while 0 < turns && place.more {
        place = turn(reader, rt, place, &mut input, &mut output);
        turns -= 1;
    }
}
