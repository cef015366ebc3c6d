// The three frames: ACK_FREQUENCY and IMMEDIATE_ACK, read and written, and ACK, read.
ghost use Rattle.std.specs.Prelude.{◌≡◌};
ghost use Rattle.wire.specs.Numbers.{put_answer, put_bytes};
ghost use Rattle.frames.specs.Frequency.{read_frequency, frequency};
ghost use Rattle.frames.specs.Immediate.{read_immediate, immediate};
ghost use Rattle.frames.specs.Ack.{read_ack};
ghost use Rattle.host_codec.specs.Numbers.{put_out};
ghost use Rattle.host_codec.specs.Frames.{frequency_out, immediate_out, ack_out};

use crate::numbers::put_out;
use crate::{AckOut, FrequencyOut, ImmediateOut, PutOut};
use frames::{Ack, Counts, Frequency};
use wire::Refusal;

// A frame of type 02 has no counts.
const NO_COUNTS: Counts = Counts {
    ect0: 0,
    ect1: 0,
    ce: 0,
};

// The frame's four values and its length, or the refusal.
#[tactic(auto, unfolding(crate::specs::Frames::frequency_out))]
pub fn frequency_out(answer: Result<Frequency, Refusal>) -> FrequencyOut
    ensures { result ≡ frequency_out answer }
{
    match answer {
        Ok(frame) => FrequencyOut {
            result: 0,
            sequence: frame.sequence,
            threshold: frame.threshold,
            delay: frame.delay,
            reordering: frame.reordering,
            used: frame.used as u64,
        },
        // A refused frame has no values.
        Err(refusal) => FrequencyOut {
            result: refusal.number(),
            ..FrequencyOut::default()
        },
    }
}

// The frame's length, or the refusal.
#[tactic(auto, unfolding(crate::specs::Frames::immediate_out))]
fn immediate_out(answer: Result<usize, Refusal>) -> ImmediateOut
    ensures { result ≡ immediate_out answer }
{
    match answer {
        Ok(used) => ImmediateOut {
            result: 0,
            used: used as u64,
        },
        Err(refusal) => ImmediateOut {
            result: refusal.number(),
            ..ImmediateOut::default()
        },
    }
}

// The frame's numbers and its length, or the refusal.
#[tactic(auto, unfolding(crate::specs::Frames::ack_out))]
pub fn ack_out(answer: Result<Ack, Refusal>) -> AckOut
    ensures { result ≡ ack_out answer }
{
    match answer {
        Ok(frame) => {
            let said = frame.tail.unwrap_or(NO_COUNTS);
            AckOut {
                result: 0,
                largest: frame.largest,
                delay: frame.delay,
                ranges: frame.ranges,
                used: frame.used as u64,
                counts: u64::from(frame.tail.is_some()),
                ect0: said.ect0,
                ect1: said.ect1,
                ce: said.ce,
            }
        }
        // A refused frame has no values.
        Err(refusal) => AckOut {
            result: refusal.number(),
            ..AckOut::default()
        },
    }
}

// Reads an ACK_FREQUENCY frame.
pub fn lumbixet_read_frequency(bytes: &[u8]) -> FrequencyOut
    ensures { result ≡ frequency_out (read_frequency bytes.now) }
{
    let answer = frames::read_frequency(bytes);
    frequency_out(answer)
}

// Reads an IMMEDIATE_ACK frame.
pub fn lumbixet_read_immediate(bytes: &[u8]) -> ImmediateOut
    ensures { result ≡ immediate_out (read_immediate bytes.now) }
{
    let answer = frames::read_immediate(bytes);
    immediate_out(answer)
}

// Reads an ACK frame and writes smallest and largest of each range to the lent slice.
pub fn lumbixet_read_ack(bytes: &[u8], ranges: &mut [u64]) -> AckOut
    ensures { (result ≡ ack_out (read_ack bytes.now ranges.old).answer) × (ranges.new ≡ (read_ack bytes.now ranges.old).slice) }
{
    let answer = frames::read_ack(bytes, ranges);
    ack_out(answer)
}

// Writes an ACK_FREQUENCY frame at the start of the buffer.
pub fn lumbixet_put_frequency(
    buffer: &mut [u8],
    sequence: u64,
    threshold: u64,
    delay: u64,
    reordering: u64,
) -> PutOut
    ensures { (result ≡ put_out (put_answer buffer.old 0 (frequency sequence threshold delay reordering))) × (buffer.new ≡ put_bytes buffer.old 0 (frequency sequence threshold delay reordering)) }
{
    let answer = frames::put_frequency(buffer, sequence, threshold, delay, reordering);
    put_out(answer)
}

// Writes an IMMEDIATE_ACK frame at the start of the buffer.
pub fn lumbixet_put_immediate(buffer: &mut [u8]) -> PutOut
    ensures { (result ≡ put_out (put_answer buffer.old 0 immediate)) × (buffer.new ≡ put_bytes buffer.old 0 immediate) }
{
    let answer = frames::put_immediate(buffer);
    put_out(answer)
}
