// The receiver's calls. A host gives each delay and time as a plain number; here it gets the type of its unit.
ghost use Rattle.std.specs.Prelude.{◌≡◌};
ghost use Rattle.receiver.specs.Packet.{packet_call};
ghost use Rattle.receiver.specs.Calls.{open_call, timer_call, immediate_call, threshold_call};
ghost use Rattle.receiver.specs.Confirm.{confirm_call};
ghost use Rattle.receiver.specs.Write.{write_answer, write_bytes};
ghost use Rattle.ecn.specs.Given.{mark_of, kind_of};
ghost use Rattle.receiver.specs.Given.{millis, micros};
ghost use Rattle.host.specs.Calls.{verdict_out, heard_out};

use ecn::{Kind, Mark};
use receiver::{Answer, Heard, Millis, Receiver, Verdict, Wrote};
use seen::Micros;

// The result of a stale frame, which is neither accepted nor refused.
const STALE: u64 = 255;

// 0 for accepted, the number of its own for stale, or the paper's refusal number.
fn verdict_out(verdict: Verdict) -> u64
    ensures { result ≡ verdict_out verdict }
{
    match verdict {
        Verdict::Accepted => 0,
        Verdict::Stale => STALE,
        Verdict::Refused(n) => n,
    }
}

// Opens a receiver: T, R, the own maximum delay in milliseconds and the own minimum delay in microseconds.
#[unsafe(no_mangle)]
pub extern "C" fn lumbixet_open(
    threshold: u64,
    reordering: u64,
    maximum: u64,
    minimum: u64,
) -> Answer
    ensures { result ≡ open_call threshold reordering (millis maximum) (micros minimum) }
{
    Receiver::open(threshold, reordering, Millis(maximum), Micros(minimum))
}

// A packet arrives.
#[unsafe(no_mangle)]
pub extern "C" fn lumbixet_packet(
    receiver: Receiver,
    number: u64,
    time: u64,
    eliciting: bool,
    ecn: u64,
) -> Answer
    ensures { result ≡ packet_call receiver number (micros time) eliciting (mark_of ecn) }
{
    let mark = Mark::from(ecn);
    receiver.packet(number, Micros(time), eliciting, mark)
}

// The timer is looked at.
#[unsafe(no_mangle)]
pub extern "C" fn lumbixet_timer(receiver: Receiver, time: u64) -> Answer
    ensures { result ≡ timer_call receiver (micros time) }
{
    receiver.timer(Micros(time))
}

// An ACK_FREQUENCY frame arrives.
#[unsafe(no_mangle)]
pub extern "C" fn lumbixet_threshold(
    receiver: Receiver,
    sequence: u64,
    threshold: u64,
    delay: u64,
    reordering: u64,
) -> Answer
    ensures { result ≡ heard_out (threshold_call receiver sequence threshold (micros delay) reordering) }
{
    let heard = receiver.threshold(sequence, threshold, Micros(delay), reordering);
    let verdict = heard.verdict;
    let result = verdict_out(verdict);
    let next = heard.next;
    Answer { result, next }
}

// An IMMEDIATE_ACK frame arrives.
#[unsafe(no_mangle)]
pub extern "C" fn lumbixet_immediate(receiver: Receiver) -> Answer
    ensures { result ≡ immediate_call receiver }
{
    receiver.immediate()
}

// A packet that carried our ACK was itself confirmed: that ACK's largest number.
#[unsafe(no_mangle)]
pub extern "C" fn lumbixet_confirm(receiver: Receiver, largest: u64) -> Answer
    ensures { result ≡ confirm_call receiver largest }
{
    receiver.confirm(largest)
}

// Writes an ACK frame at the start of the buffer: of type 03, with the counts, or of type 02.
#[unsafe(no_mangle)]
pub extern "C" fn lumbixet_write(
    receiver: Receiver,
    time: u64,
    counts: bool,
    buffer: &mut [u8],
) -> Wrote
    ensures { (result ≡ write_answer receiver (micros time) (kind_of counts) buffer.old) × (buffer.new ≡ write_bytes receiver (micros time) (kind_of counts) buffer.old) }
{
    let kind = Kind::from(counts);
    receiver.write(Micros(time), kind, buffer)
}
