// The calls on a record, each with the time that its line has.
ghost use Rattle.std.specs.Prelude.{◌≡◌, ◌≤◌, [], length, take};
ghost use Rattle.wire.specs.Bytes.{pick};
ghost use Rattle.receiver.specs.Record.{consistent};
ghost use Rattle.receiver.specs.Calls.{usual};
ghost use Rattle.call_log.specs.Calls.{verdict_of, heard_of, longest_frame, acting, step, frame_of};
ghost use Rattle.call_log.specs.Logged.{made};

use crate::{Call, FRAME_ROOM, Noted};
use receiver::{Answer, Heard, Millis, Receiver, Verdict};
use seen::{Micros, numbers};
use wire::Refusal;

fn verdict_of(res: u64) -> Verdict
    ensures { result ≡ verdict_of res }
{
    match res {
        0 => Verdict::Accepted,
        _ => Verdict::Refused(res),
    }
}

// A result with a frame of so many bytes; the line is still to come.
fn answered(res: u64, next: Receiver, frame: usize) -> Noted
    ensures { result ≡ made (record { verdict = verdict_of res; next = next }) frame }
{
    Noted {
        verdict: verdict_of(res),
        next,
        frame,
        line: 0,
    }
}

fn plain(answer: Answer) -> Noted
    ensures { result ≡ made (heard_of answer) 0 }
{
    answered(answer.result, answer.next, 0)
}

fn heard(answer: Heard) -> Noted
    ensures { result ≡ made answer 0 }
{
    Noted {
        verdict: answer.verdict,
        next: answer.next,
        frame: 0,
        line: 0,
    }
}

// What a time above the limit gives a call that only notes it.
fn untimely(receiver: Receiver) -> Noted
    ensures { result ≡ made (record { verdict = pick (consistent receiver) (Verdict.Refused 5) (Verdict.Refused 1); next = receiver }) 0 }
{
    let refusal = if receiver.consistent() {
        Refusal::TooLarge
    } else {
        Refusal::Inconsistent
    };
    answered(refusal.number(), receiver, 0)
}

// The same for an opening.
fn untimely_opening() -> Noted
    ensures { result ≡ made (record { verdict = Verdict.Refused 5; next = usual }) 0 }
{
    let opened = Receiver::open(1, 1, Millis(25), Micros(1000));
    answered(Refusal::TooLarge.number(), opened.next, 0)
}

fn acting(room: u64) -> usize
    ensures { (result ≡ acting room) × (result ≤ longest_frame) }
{
    room.min(FRAME_ROOM as u64) as usize
}

// The call on the record; a write's frame goes to the start of the buffer.
pub(crate) fn step(receiver: Receiver, time: Micros, call: Call, frame: &mut [u8]) -> Noted
    requires { longest_frame ≤ length frame.old }
    ensures { (result ≡ made (step receiver time call) (length (frame_of receiver time call)))
        × (take result.frame frame.new ≡ frame_of receiver time call)
        × (result.frame ≤ longest_frame) }
{
    match call {
        Call::Open {
            threshold,
            reordering,
            maximum,
            minimum,
        } => {
            if !numbers::is_small(time.0) {
                return untimely_opening();
            }
            plain(Receiver::open(threshold, reordering, maximum, minimum))
        }
        Call::Packet {
            number,
            eliciting,
            mark,
        } => plain(receiver.packet(number, time, eliciting, mark)),
        Call::Timer => plain(receiver.timer(time)),
        Call::Threshold {
            sequence,
            threshold,
            delay,
            reordering,
        } => {
            if !numbers::is_small(time.0) {
                return untimely(receiver);
            }
            heard(receiver.threshold(sequence, threshold, delay, reordering))
        }
        Call::Immediate => {
            if !numbers::is_small(time.0) {
                return untimely(receiver);
            }
            plain(receiver.immediate())
        }
        Call::Confirm { largest } => {
            if !numbers::is_small(time.0) {
                return untimely(receiver);
            }
            plain(receiver.confirm(largest))
        }
        Call::Write { kind, room } => {
            let end = acting(room);
            let wrote = receiver.write(time, kind, &mut frame[..end]);
            answered(wrote.result, wrote.next, wrote.length as usize)
        }
    }
}
