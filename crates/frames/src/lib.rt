// The three frames: ACK_FREQUENCY and IMMEDIATE_ACK, read and written, and ACK, read.
// Carries "Three frames" of document 01 (004; RFC 9000 section 19.3), and ACK with counts (02, No. 2).
// Every public function takes any bytes and any numbers, and refuses by the paper's table.

#![tactic(auto)]

mod ack_frame;
mod ack_header;
mod ack_ranges;
mod frame_type;
mod frequency_frame;
mod immediate_frame;

pub use ack_frame::{check_ack, read_ack, read_ack_as};
pub use ack_ranges::read_range;
pub use frequency_frame::{put_frequency, read_frequency, read_frequency_as};
pub use immediate_frame::{put_immediate, read_immediate};

// ACK_FREQUENCY as it was read: its four numbers, and the length used.
#[derive(Clone, Copy)]
pub struct Frequency {
    pub sequence: u64,
    pub threshold: u64,
    pub delay: u64,
    pub reordering: u64,
    pub used: usize,
}

// The three ECN counts that an ACK frame of type 03 has after its ranges; one of type 02 has nothing there (RFC 9000 19.3.2).
#[derive(Clone, Copy)]
pub struct Counts {
    pub ect0: u64,
    pub ect1: u64,
    pub ce: u64,
}

// ACK as it was read: how many ranges were written beside its numbers, the length used and what came after the ranges.
#[derive(Clone, Copy)]
pub struct Ack {
    pub largest: u64,
    pub delay: u64,
    pub ranges: u64,
    pub used: usize,
    pub tail: Option<Counts>,
}

// ACK as it was checked, with nothing written: its numbers, where its ranges stand and how many come after the first, the length used and what came after the ranges.
#[derive(Clone, Copy)]
pub struct Checked {
    pub largest: u64,
    pub delay: u64,
    pub at: usize,
    pub count: u64,
    pub used: usize,
    pub tail: Option<Counts>,
}

// One step over a frame's ranges: a range's smallest, then, where some are left, the largest of the one below it and where its length stands; after the last 0 and the place after it.
#[derive(Clone, Copy)]
pub struct Range {
    pub smallest: u64,
    pub below: u64,
    pub next: usize,
}

// A frame's type as it was read, and the place after it.
#[derive(Clone, Copy)]
struct Kind {
    kind: u64,
    next: usize,
}

// What stands before a frame's ranges, where they stand and whether counts come after them.
#[derive(Clone, Copy)]
struct Header {
    largest: u64,
    delay: u64,
    count: u64,
    at: usize,
    counted: bool,
}

// How a frame ends: what came after its ranges, and the length used.
#[derive(Clone, Copy)]
struct Ending {
    tail: Option<Counts>,
    used: usize,
}
