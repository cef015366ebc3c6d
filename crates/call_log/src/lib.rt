// The log that cannot lie: a call on a receiver and its line in one, so that the line says what the record then holds.
// Carries the house's own format of one line for each call: its time, its arguments, its answer, a write's frame, and what is in force after it.
// Every public function takes any record, any call and any buffers.

#![tactic(auto)]

mod calls;
mod line;
mod noting;
mod parts;
mod values;

use ecn::{Kind, Mark};
pub use noting::logged;
use receiver::{Millis, Receiver, Verdict};
use seen::Micros;

// The longest frame there is: a larger room acts as this.
pub const FRAME_ROOM: usize = 1066;

// A line without its frame's digits is never longer.
pub const LINE_ALONE: usize = 520;

// Room that suffices for every line: two digits for each byte of the longest frame.
pub const LINE_ROOM: usize = 2652;

// A call and its arguments, but for the time, which every line has.
#[derive(Clone, Copy)]
pub enum Call {
    Open {
        threshold: u64,
        reordering: u64,
        maximum: Millis,
        minimum: Micros,
    },
    Packet {
        number: u64,
        eliciting: bool,
        mark: Mark,
    },
    Timer,
    Threshold {
        sequence: u64,
        threshold: u64,
        delay: Micros,
        reordering: u64,
    },
    Immediate,
    Confirm {
        largest: u64,
    },
    Write {
        kind: Kind,
        room: u64,
    },
}

// What a line says is in force. What may be absent is kept as an end: one past the number, and 0 for none.
#[derive(Clone, Copy)]
pub struct Now {
    // T, R and the delay of the opening or of the last accepted frame.
    pub threshold: u64,
    pub reordering: u64,
    pub delay: Micros,
    // The end of the largest sequence that was processed.
    pub sequence: u64,
    // The end of L, the largest number that was received.
    pub largest: u64,
    // The floor in use.
    pub floor: u64,
    // The end of A, the largest number that was acknowledged.
    pub acknowledged: u64,
    // N, the packets still to acknowledge.
    pub pending: u64,
    // Why an acknowledgment is due, 0 for not.
    pub cause: u64,
}

// What a logged call comes to.
#[derive(Clone, Copy)]
pub struct Noted {
    // The call's answer; where there is no line, why.
    pub verdict: Verdict,
    // The next record; where there is no line, the record as it came.
    pub next: Receiver,
    // A write's frame takes so many bytes at the start of its buffer.
    pub frame: usize,
    // The line takes so many bytes at the start of its buffer, 0 where nothing happened: the laws over logs name it so.
    pub line: usize,
}
