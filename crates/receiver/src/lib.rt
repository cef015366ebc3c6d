// The receiver record: what was received, what must still be acknowledged, and when that is due.
// Carries "The receiver record" of document 01 (RFC 9000 section 13.2, ACK Frequency version 14).
// Each call takes the record by value and hands the next one back; a refused call hands it back as it came.

#![tactic(auto)]

ghost use Rattle.std.specs.Prelude.{◌≡◌};
ghost use Rattle.wire.specs.Refusals.{number_of};

use ecn::Totals;
use seen::{Micros, Seen};
use wire::Refusal;

mod calls;
mod causes;
mod confirm;
mod consistent;
mod delays;
mod packet;
mod write;

// Milliseconds: the own maximum delay, as max_ack_delay is announced (RFC 9000 18.2).
#[repr(C)]
#[derive(Clone, Copy)]
pub struct Millis(pub u64);

// What may be absent is kept as an end, one past the number, and 0 for none: the C interface has these records.

// What came since the last written ACK.
#[repr(C)]
#[derive(Clone, Copy)]
pub struct Pending {
    // N counts the ack-eliciting packets that came; at 2^62 it stays.
    pub count: u64,
    // This is the end of U, the largest of their numbers.
    pub end: u64,
    // The first of them arrived at this time; it means nothing while N is 0.
    pub first: Micros,
}

// The values in force, from the opening or the last accepted ACK_FREQUENCY frame.
#[repr(C)]
#[derive(Clone, Copy)]
pub struct Agreed {
    // More ack-eliciting packets than T make an acknowledgment due.
    pub threshold: u64,
    // R says which order rule holds: 0, none; 1, RFC 9000's; from 2 up the draft's, above 1,023 as for 1,023.
    pub reordering: u64,
    // From this delay on the timer makes an acknowledgment due.
    pub delay: Micros,
    // This is the end of the largest sequence that was processed.
    pub sequence: u64,
}

// The receiver's own limits, given at the opening.
#[repr(C)]
#[derive(Clone, Copy)]
pub struct Limits {
    // The receiver delays no acknowledgment longer than this, which is below 16,384 ms.
    pub maximum: Millis,
    // The receiver takes no requested delay below this, which is not above the maximum.
    pub minimum: Micros,
}

// The whole record. Every bit pattern of it has a meaning, and refusal 1 tells which of them are consistent.
#[repr(C)]
#[derive(Clone, Copy)]
pub struct Receiver {
    // It knows what was received.
    pub seen: Seen,
    // It knows what must still be acknowledged.
    pub pending: Pending,
    // It keeps what the sender asked for last.
    pub agreed: Agreed,
    // It keeps what the receiver allows itself.
    pub limits: Limits,
    // This is the end of A, the largest number that was acknowledged.
    pub acknowledged: u64,
    // This is the end of H, the highest ack-eliciting number.
    pub highest: u64,
    // The last accepted packet had the CE mark exactly where this is not 0; a packet stores 1 or 0.
    pub ce: u64,
    // The cause says why an acknowledgment is due, a number for the C interface: 0 it is not, 1 IMMEDIATE_ACK, 2 count, 3 order, 4 congestion, 5 timer.
    pub cause: u64,
    // It counts the accepted packets by their marks.
    pub totals: Totals,
}

// A call's result, 0 for accepted or the paper's refusal number, and the next record.
#[repr(C)]
#[derive(Clone, Copy)]
pub struct Answer {
    pub result: u64,
    pub next: Receiver,
}

impl Answer {
    // A refusal's number and the record as it came.
    fn refused(refusal: Refusal, kept: Receiver) -> Answer
        ensures { result ≡ record { result = number_of refusal; next = kept } }
    {
        Answer {
            result: refusal.number(),
            next: kept,
        }
    }
}

// What the write call answers.
#[repr(C)]
#[derive(Clone, Copy)]
pub struct Wrote {
    // This is 0 for accepted, or the paper's refusal number.
    pub result: u64,
    // The frame takes so many bytes at the start of the lent buffer, 0 where it was refused.
    pub length: u64,
    // This is the next record.
    pub next: Receiver,
}

// What a threshold frame comes to.
#[derive(Clone, Copy)]
pub enum Verdict {
    Accepted,
    // Its sequence is not above the largest processed: nothing changes.
    Stale,
    // The paper's number, as Answer tells it (the C interface): a log's line takes either.
    Refused(u64),
}

// The threshold call's verdict and the next record.
#[derive(Clone, Copy)]
pub struct Heard {
    pub verdict: Verdict,
    pub next: Receiver,
}
