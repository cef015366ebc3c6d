// The week's totals of document 02, No. 13: a file of reports on standard input, one page on standard output.
// It holds one piece of the file and two pages, less than 64 KiB with all that it calls.

#![tactic(auto)]

ghost use Rattle.std.specs.Prelude.{◌≡◌, ◌≤◌, ◌<◌, length, take};
ghost use Rattle.std.specs.Counts.{IsPrefixLen};
ghost use Rattle.page.specs.Page.{longest_page};
ghost use Rattle.week.specs.Turn.{least, last_of, more_of, ended_of, answer_of, Took, Turned, HasRead, to_print, Printed};

use std::io::{Read, Stderr};
use totals::Standing;

// How many bytes are held at a time: the longest report that is read, with its length, fits in three times.
const PIECE: usize = 32768;

// Room for the longest page.
const ROOM: usize = 1363;

// Where the program stands between two reads.
#[derive(Clone, Copy)]
struct Place {
    standing: Standing,
    // How many bytes at the start of the buffer are left of what was read.
    left: usize,
    last: Last,
}

// What the last read came to.
#[derive(Clone, Copy)]
enum Last {
    // It gave bytes, so that there may be more; before the first read too.
    Gave,
    // It gave none, because the input has ended.
    Ended,
    // It failed.
    Failed,
}

// What a read comes to that gave so many bytes, or failed.
fn last_of(came: Option<usize>) -> Last
    ensures { result ≡ last_of came }
{
    match came {
        None => Last::Failed,
        Some(0) => Last::Ended,
        Some(_) => Last::Gave,
    }
}

// Whether there may be more to read.
fn goes_on(place: Place) -> bool
    ensures { result ≡ more_of place.last }
{
    matches!(place.last, Last::Gave)
}

// Whether the input was read to its end.
fn has_ended(place: Place) -> bool
    ensures { result ≡ ended_of place.last }
{
    matches!(place.last, Last::Ended)
}

// Takes what a read put behind what is left: the reports that are whole. The rest is kept.
// came is how many bytes the read gave, 0 at the end of the input, and nothing where it failed.
fn took(place: Place, input: &mut [u8], came: Option<usize>) -> Place
    requires { place.left ≤ length input.old }
    ensures { Took place input.old (answer_of came) result input.new }
{
    let left = place.left;
    let end = left + came.unwrap_or(0).min(input.len() - left);
    let before = place.standing;
    let taken = before.piece(&input[..end]);
    let used = taken.used;
    totals::keep_rest(input, used, end);
    let standing = taken.next;
    Place {
        standing,
        left: end - used,
        last: last_of(came),
    }
}

// Reads on behind what is left, and takes what came.
fn turn<R: Read>(reader: &mut R, place: Place, input: &mut [u8]) -> Place
    requires { place.left < length input.old }
    ensures { Turned place input.old result input.new }
{
    let left = place.left;
    let came = reader.read(&mut input[left..]).ok();
    took(place, input, came)
}

// Reads up to the end of the file, or to a read that fails.
// A proved loop has to end, and nothing says that an input does: it counts its turns down from a number that no run uses up,
// and by no range, as the last read ends it too.
fn read_week<R: Read>(reader: &mut R, input: &mut [u8]) -> Place
    requires { least ≤ length input.old }
    ensures { HasRead result }
{
    let mut place = Place {
        standing: Standing::start(),
        left: 0,
        last: Last::Gave,
    };
    let mut turns = u64::MAX;
    while 0 < turns && goes_on(place) {
        place = turn(reader, place, input);
        turns -= 1;
    }
    place
}

// Lays out what is printed: the page of a file that was read to its end, and nothing of one that was not. Answers how many bytes.
fn lay_out(place: Place, output: &mut [u8]) -> usize
    requires { longest_page ≤ length output.old }
    ensures { (take result output.new ≡ to_print place) × IsPrefixLen result output.new }
{
    if !has_ended(place) {
        return 0;
    }
    let standing = place.standing;
    let Ok(next) = page::put_page(output, standing, place.left) else {
        return 0;
    };
    next
}

// The whole program but for its last write.
fn week<R: Read>(reader: &mut R, input: &mut [u8], output: &mut [u8]) -> usize
    requires { (least ≤ length input.old) × (longest_page ≤ length output.old) }
    ensures { Printed (take result output.new) × IsPrefixLen result output.new }
{
    let place = read_week(reader, input);
    lay_out(place, output)
}

// A line on standard error. Where it cannot be written either, nobody is left to tell.
fn complain(stderr: Stderr, line: &[u8]) {
    let _ = stderr.write_all(line);
}

fn main(rt: HostRuntime) {
    let mut input = [0u8; PIECE];
    let mut output = [0u8; ROOM];
    let length = week(&mut rt.stdin(), &mut input, &mut output);
    if length == 0 {
        complain(
            rt.stderr(),
            b"week: standard input cannot be read, so no page is printed\n",
        );
        return;
    }
    if rt.stdout().write_all(&output[..length]).is_err() {
        complain(
            rt.stderr(),
            b"week: standard output cannot be written, so the page is missing\n",
        );
    }
}
