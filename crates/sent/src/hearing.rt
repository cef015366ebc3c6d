// An ACK frame is heard: the marks of its ranges, and what they change.
ghost use Rattle.std.specs.Prelude.{◌≡◌, ◌+◌, ◌≤◌, ◌<◌, length};
ghost use Rattle.wire.specs.Numbers.{limit};
ghost use Rattle.wire.specs.Refusals.{number_of};
ghost use Rattle.frames.specs.Ack.{IsWhole};
ghost use Rattle.sent.specs.Record.{next_of, end_of};
ghost use Rattle.sent.specs.Heard.{FrameMarks, Either, Without, AckedAnew, LostAnew, Changed, end_after, ranges_of, hear_ranges, hear, IsHeard};

use crate::record::{consistent, due_marks, floor_of};
use crate::{AT_ACKED_BEFORE, AT_END, AT_LOST, AT_LOST_BEFORE, AT_NEXT, Reply, WORDS};
use frames::{Checked, Range};
use marks::{add_range, count_marks, larger, list_marks};
use wire::Refusal;

// The marks of a checked frame's numbers among those from the oldest held on.
fn frame_marks(s: &[u8], checked: &Checked, floor: u64) -> [u64; 16]
    requires { (checked.now.largest < floor + 1024) × (checked.now.largest ≤ limit) × IsWhole (ranges_of s.now checked.now).walk }
    ensures { FrameMarks result floor (ranges_of s.now checked.now).pairs }
{
    let mut words = [0u64; 16];
    let mut high = checked.largest;
    let mut place = checked.at;
    let mut left = checked.count;
    // `read_range` asks how many are left, and the last one ends the walk.
    loop {
        let Ok(
            Range {
                smallest,
                below,
                next,
            },
        ) = frames::read_range(s, place, high, left)
        else {
            return words;
        };
        add_range(&mut words, larger(smallest, floor), high + 1);
        if left == 0 {
            return words;
        }
        high = below;
        place = next;
        left -= 1;
    }
}

// The marks of both words.
fn either(a: u64, b: u64) -> u64
    ensures { Either result a b }
{
    a | b
}

// The marks of a word that the other has not.
fn without(word: u64, other: u64) -> u64
    ensures { Without result word other }
{
    word & !other
}

// The marks of a frame that were not there.
fn acked_anew(losses: &[u64; WORDS], frame: &[u64; 16]) -> [u64; 16]
    ensures { AckedAnew result losses.now frame.now }
{
    let mut words = [0u64; 16];
    for i in 0..16 {
        words[i] = without(frame[i], losses[i]);
    }
    words
}

// The marks of those that the rule settles and that have no mark, nor one of the frame.
fn lost_anew(losses: &[u64; WORDS], frame: &[u64; 16], due: &[u64; 16]) -> [u64; 16]
    ensures { LostAnew result losses.now frame.now due.now }
{
    let mut words = [0u64; 16];
    for i in 0..16 {
        let marked = either(losses[i], losses[AT_LOST + i]);
        words[i] = without(due[i], either(marked, frame[i]));
    }
    words
}

// The record in which the numbers of a frame are acknowledged, and those lost that the rule settles and that are not acknowledged.
fn changed(losses: &[u64; WORDS], frame: &[u64; 16], due: &[u64; 16], end: u64) -> [u64; WORDS]
    ensures { Changed result losses.now frame.now due.now end }
{
    let mut words = [0u64; WORDS];
    for i in 0..16 {
        let acked = either(losses[i], frame[i]);
        words[i] = acked;
        words[AT_LOST + i] = without(either(losses[AT_LOST + i], due[i]), acked);
    }
    words[AT_NEXT] = losses[AT_NEXT];
    words[AT_ACKED_BEFORE] = losses[AT_ACKED_BEFORE];
    words[AT_LOST_BEFORE] = losses[AT_LOST_BEFORE];
    words[AT_END] = end;
    words
}

// A refusal, with nothing listed.
impl From<Refusal> for Reply {
    ghost from_gives = { λ refusal reply. reply ≡ record { result = number_of refusal; length = 0; acked = 0; lost = 0 } };

    fn from(refusal: Refusal) -> Reply {
        Reply {
            result: refusal.number(),
            length: 0,
            acked: 0,
            lost: 0,
        }
    }
}

// Hears the ranges of a checked frame whose largest was sent: both lists need room (9) before anything is written.
fn hear_ranges(
    losses: &mut [u64; WORDS],
    s: &[u8],
    checked: &Checked,
    acked: &mut [u64],
    lost: &mut [u64],
) -> Reply
    requires { (checked.now.largest < next_of losses.old) × (end_of losses.old ≤ next_of losses.old) × (next_of losses.old ≤ limit + 1) × IsWhole (ranges_of s.now checked.now).walk }
    ensures { IsHeard (hear_ranges losses.old (ranges_of s.now checked.now).pairs (end_after losses.old checked.now.largest) checked.now.used (length acked.old) (length lost.old)) acked.old lost.old result losses.new acked.new lost.new }
{
    let next = losses[AT_NEXT];
    let floor = floor_of(next);
    let end = larger(losses[AT_END], checked.largest + 1);
    let frame = frame_marks(s, checked, floor);
    let due = due_marks(floor, end);
    let new_acked = acked_anew(losses, &frame);
    let new_lost = lost_anew(losses, &frame, &due);
    let acked_count = count_marks(&new_acked, floor, next);
    let lost_count = count_marks(&new_lost, floor, next);
    if (acked.len() as u64) < acked_count {
        return Reply::from(Refusal::NoRoom);
    }
    if (lost.len() as u64) < lost_count {
        return Reply::from(Refusal::NoRoom);
    }
    list_marks(acked, &new_acked, floor, next);
    list_marks(lost, &new_lost, floor, next);
    *losses = changed(losses, &frame, &due, end);
    Reply {
        result: 0,
        length: checked.used as u64,
        acked: acked_count,
        lost: lost_count,
    }
}

// Hears the ACK frame that the bytes start with. The newly acknowledged and the newly lost numbers are written to the two lists, rising.
pub fn heard(losses: &mut [u64; WORDS], frame: &[u8], acked: &mut [u64], lost: &mut [u64]) -> Reply
    ensures { IsHeard (hear losses.old frame.now (length acked.old) (length lost.old)) acked.old lost.old result losses.new acked.new lost.new }
{
    if !consistent(losses) {
        return Reply::from(Refusal::Inconsistent);
    }
    match frames::check_ack(frame) {
        Err(refusal) => Reply::from(refusal),
        Ok(checked) => {
            if losses[AT_NEXT] <= checked.largest {
                return Reply::from(Refusal::NeverSent);
            }
            hear_ranges(losses, frame, &checked, acked, lost)
        }
    }
}
